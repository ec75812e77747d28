// The set lent whole: an addition alters the lent set itself, and hands back whether there was room with the count; dropping what is over alters it, too.
#![tactic(auto)]

ghost use Rattle.std.specs.Prelude.{◌≡◌, length};
ghost use Rattle.numbers.specs.Refusals.{refused_with};
ghost use Rattle.numset.specs.Runs.{Good, runs, kept, pack, add_number, add_words, add_count};

use numset::{Added, NumSet, Tally};

pub fn add(set: &mut NumSet, lower: u64, upper: u64) -> Tally
    requires { Good set.old.words }
    ensures { (refused_with result.outcome ≡ add_number set.old.words lower upper) × (result.count ≡ add_count set.old.words lower upper) × (set.new.words ≡ add_words set.old.words lower upper) }
{
    let sum = (*set).add(lower, upper);
    *set = sum.set;
    sum.tally
}

// The same on a set by value, which it lends to `add`: whoever calls this one makes no reference to a set.
pub fn added(set: NumSet, lower: u64, upper: u64) -> Added
    requires { Good set.words }
    ensures { (refused_with result.tally.outcome ≡ add_number set.words lower upper) × (result.tally.count ≡ add_count set.words lower upper) × (result.set.words ≡ add_words set.words lower upper) }
{
    let mut lent = set;
    let tally = add(&mut lent, lower, upper);
    Added { tally, set: lent }
}

// Drops the runs that end before `t`.
pub fn drop_before(set: &mut NumSet, t: u64)
    requires { Good set.old.words }
    ensures { set.new.words ≡ pack (length set.old.words) (kept t (runs set.old.words)) }
{
    let left = (*set).drop_before(t);
    *set = left;
}

// The same on a set by value, as `added` is of `add`.
pub fn dropped(set: NumSet, t: u64) -> NumSet
    requires { Good set.words }
    ensures { result.words ≡ pack (length set.words) (kept t (runs set.words)) }
{
    let mut lent = set;
    drop_before(&mut lent, t);
    lent
}
