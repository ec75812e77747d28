// A set of instants in lent words, as the runs that it consists of: sorted, disjoint and never adjacent.
//
// Word 0 is the number of runs. Run `j`, counted from the oldest (the lowest), is words 2 * j + 1 and 2 * j + 2:
// its lower and its upper end, both in the set. Words not in use are 0, so that a set has one form only.
// The slice's length decides how many runs there is room for. Callers lend the words, so that a contract says that they are `Good`, and no
// type of theirs.
//
// A monitor's sets stand in rings (the crate `ring`), which come here only for what belongs between their runs.
#![tactic(auto)]

ghost use Rattle.std.specs.Prelude.{◌≡◌, true, false, [], ◌↔◌, ◌+◌, ◌*◌, ◌-◌, ◌<◌, ◌≤◌, min, max, length, get_or, replicate};
ghost use Rattle.numbers.specs.Refusals.{refused_with};
ghost use Rattle.numset.specs.Runs.{Good, Covers, empty_number, runs, has, lo, hi, kept, union, fits, pack, kept_words, add_number, add_words, add_count, set_to_number, set_to_words};
ghost use Rattle.numset.specs.Props.{Good-prop};
ghost use Rattle.numset.specs.Private.{Shifted, Cleared, Replaced, Ended, Spanned, oldest_lapsed, Lapsed, Dropped, takes_in, with_run};

mod by_value; // by_value.rt: a set of 64 runs by value
mod sorted; // sorted.rt: what the ends of the runs tell, wherever they stand

pub use by_value::{Added, NumSet, SET_WORDS};
use numbers::Refusal;
pub use sorted::{ADJACENT, SortedRuns};
use sorted::{Span, find_span};

// The words of a set of one run.
const ONE_RUN: usize = 3;

// A set in lent words.
#[derive(Clone, Copy)]
struct Flat<'a> {
    set: &'a [u64],
    ghost is: { Good set.now } by { Good-prop set.now },
}

impl SortedRuns for Flat<'_> {
    ghost words = { λ x. x.set.now };

    fn count(&self) -> usize {
        self.set[0] as usize
    }

    fn lower_at(&self, j: usize) -> u64 {
        self.set[2 * j + 1]
    }

    fn upper_at(&self, j: usize) -> u64 {
        self.set[2 * j + 2]
    }

    fn oldest_upper(&self) -> u64 {
        self.set[2]
    }

    fn has_place(&self) -> bool {
        2 * self.count() + ONE_RUN <= self.set.len()
    }

    ghost good = { λ x. x.is };
}

// Whether `t` is in the set. The newest run comes first, since where instants come in order the last runs are asked for most; and the
// first from there that begins at or before `t` decides, since every older run ends before that one begins. `ring::contains` looks from the
// oldest run, as a clock does that goes on: both orders have to stay.
pub fn contains(set: &[u64], t: u64) -> bool
    requires { Good set.now }
    ensures { result ≡ has (runs set.now) t }
{
    let runs = Flat { set };
    for run in (0..runs.count()).rev() {
        if runs.lower_at(run) <= t {
            return t <= runs.upper_at(run);
        }
    }
    false
}

// Whether every instant from `from` to MAX is in the set: `contains_unbounded_interval` of the original. Only the last run can hold MAX.
pub fn covers(set: &[u64], from: u64) -> bool
    requires { Good set.now }
    ensures { (result ≡ true) ↔ Covers from (runs set.now) }
{
    Flat { set }.covers(from)
}

// Makes the words from `from` up to `to` 0.
fn wipe(set: &mut [u64], from: usize, to: usize)
    requires { (from ≤ to) × (to ≤ length set.old) }
    ensures { Cleared set.old set.new from to }
{
    set[from..to].fill(0);
}

// Makes `lower ..= upper` run `s`, and `n` the number of runs. Not written once with the ring's: what a store alone leaves need be no set,
// which a type that the runs are read of promises.
fn store(set: &mut [u64], s: usize, lower: u64, upper: u64, n: usize)
    requires { 2 * s + 2 < length set.old }
    ensures { set.new ≡ with_run set.old s lower upper n }
{
    set[2 * s + 1] = lower;
    set[2 * s + 2] = upper;
    set[0] = n as u64;
}

// Puts a run before run `s`.
fn put_new(set: &mut [u64], s: usize, lower: u64, upper: u64)
    requires good { Good set.old }
    requires s_bound { (s ≤ get_or set.old 0 0) × (2 * get_or set.old 0 0 + 2 < length set.old) }
    ensures { Replaced set.old set.new s s (get_or set.old 0 0) lower upper }
{
    let n = set[0] as usize;
    set.copy_within(2 * s + 1..2 * n + 1, 2 * s + 3);
    store(set, s, lower, upper, n + 1);
}

// Puts a run in the place of the runs `s .. e`; the words that become free are wiped.
fn put_over(set: &mut [u64], s: usize, e: usize, lower: u64, upper: u64)
    requires good { Good set.old }
    requires s_lt_e { (s < e) × (e ≤ get_or set.old 0 0) }
    ensures { Replaced set.old set.new s e (get_or set.old 0 0) lower upper }
{
    let n = set[0] as usize;
    let m = s + 1 + (n - e);
    set.copy_within(2 * e + 1..2 * n + 1, 2 * s + 3);
    wipe(set, 2 * m + 1, 2 * n + 1);
    store(set, s, lower, upper, m);
}

// Adds `lower ..= upper` to a set whose newest run takes it in: that run alone may become longer.
fn lengthen(set: &mut [u64], lower: u64, upper: u64)
    requires good { Good set.old }
    requires lower_le_upper { (lower ≤ upper) × (takes_in set.old lower ≡ true) }
    ensures { (add_number set.old lower upper ≡ 0) × (set.new ≡ add_words set.old lower upper) }
{
    let n = set[0] as usize;
    let last = n - 1;
    let runs = Flat { set };
    let low = runs.lower_at(last);
    let high = runs.upper_at(last);
    store(set, last, low, upper.max(high), n);
}

// Adds `lower ..= upper` wherever it belongs.
fn put(set: &mut [u64], lower: u64, upper: u64) -> Result<(), Refusal>
    requires good { Good set.old }
    requires lower_le_upper { lower ≤ upper }
    ensures { (refused_with result ≡ add_number set.old lower upper) × (set.new ≡ add_words set.old lower upper) }
{
    let n = set[0] as usize;
    let joined = find_span(&Flat { set }, lower, upper);
    let start = joined.start;
    let end = joined.end;
    if start < end {
        put_over(set, start, end, joined.lower, joined.upper);
        return Ok(());
    }
    if set.len() < 2 * n + ONE_RUN {
        return Err(Refusal::NoRoom);
    }
    put_new(set, start, joined.lower, joined.upper);
    Ok(())
}

// Adds `lower ..= upper`, in place; where there is no room the set is as it was. The newest run is asked first whether it takes it in,
// since then no other is looked at.
fn join_in(set: &mut [u64], lower: u64, upper: u64) -> Result<(), Refusal>
    requires { Good set.old }
    ensures { (refused_with result ≡ add_number set.old lower upper) × (set.new ≡ add_words set.old lower upper) }
{
    // Skip if empty range
    if upper < lower {
        return Ok(());
    }
    if (Flat { set }).takes_in(lower) {
        lengthen(set, lower, upper);
        return Ok(());
    }
    put(set, lower, upper)
}

// What an addition hands back: whether there was room, and how many runs the set then holds.
#[derive(Clone, Copy)]
pub struct Tally {
    pub outcome: Result<(), Refusal>,
    pub count: u64,
}

// Adds `lower ..= upper`, in place, and hands back how many runs the set now holds as well as whether there was room. Where there was
// none, as where `lower` is above `upper`, the set and the count are as they were.
pub fn add(set: &mut [u64], lower: u64, upper: u64) -> Tally
    requires { Good set.old }
    ensures { (refused_with result.outcome ≡ add_number set.old lower upper) × (result.count ≡ add_count set.old lower upper) × (set.new ≡ add_words set.old lower upper) }
{
    let outcome = join_in(set, lower, upper);
    let count = set[0];
    Tally { outcome, count }
}

// Whether there is room to add `lower ..= upper`: only a run that joins no other takes more.
pub fn has_room(set: &[u64], lower: u64, upper: u64) -> bool
    requires { Good set.now }
    ensures { result ≡ fits (length set.now) (union lower upper (runs set.now)) }
{
    Flat { set }.has_room(lower, upper)
}

// How many runs end before `t`. They are the oldest, so that the first which does not ends the look.
fn lapsed(set: &[u64], t: u64) -> usize
    requires { Good set.now }
    ensures { Lapsed set.now t result }
{
    let runs = Flat { set };
    let n = runs.count();
    for run in 0..n {
        if t <= runs.upper_at(run) {
            return run;
        }
    }
    n
}

// Drops the `count` oldest runs; what is left moves once, and the words that become free are wiped.
fn drop_oldest(set: &mut [u64], count: usize)
    requires good { Good set.old }
    requires count_bound { count ≤ get_or set.old 0 0 }
    ensures { Dropped set.old set.new count (get_or set.old 0 0) }
{
    let n = set[0] as usize;
    let left = n - count;
    set.copy_within(2 * count + 1..2 * n + 1, 1);
    wipe(set, 2 * left + 1, 2 * n + 1);
    set[0] = left as u64;
}

// Drops the runs that end before `t`, which are counted first.
fn drop_lapsed(set: &mut [u64], t: u64)
    requires { Good set.old }
    ensures { set.new ≡ kept_words t set.old }
{
    let count = lapsed(set, t);
    drop_oldest(set, count);
}

// Drops the runs that end before `t`. Where there is none, only the oldest run is looked at. Not written once with the ring's, where no run
// moves.
pub fn drop_before(set: &mut [u64], t: u64)
    requires { Good set.old }
    ensures { set.new ≡ pack (length set.old) (kept t (runs set.old)) }
{
    if (Flat { set }).oldest_lapsed(t) {
        drop_lapsed(set, t);
    }
}

// Empties the set. Only the words in use are touched.
pub fn clear(set: &mut [u64])
    requires { Good set.old }
    ensures { set.new ≡ pack (length set.old) [] }
{
    let n = set[0] as usize;
    wipe(set, 0, 2 * n + 1);
}

// Sets the set to `lower ..= upper`, which empties it where `lower` is above `upper`. It is refused as `add` is.
pub fn set_to(set: &mut [u64], lower: u64, upper: u64) -> Result<(), Refusal>
    requires { Good set.old }
    ensures { (refused_with result ≡ set_to_number set.old lower upper) × (set.new ≡ set_to_words set.old lower upper) }
{
    if upper < lower {
        clear(set);
        return Ok(());
    }
    if set.len() < ONE_RUN {
        return Err(Refusal::NoRoom);
    }
    clear(set);
    put(set, lower, upper)
}

// Makes any words the empty set. Where there is no word, not even for the number of runs, there is no set either.
pub fn empty(set: &mut [u64]) -> Result<(), Refusal>
    ensures { (refused_with result ≡ empty_number set.old) × (set.new ≡ replicate (length set.old) 0) }
{
    if set.is_empty() {
        return Err(Refusal::NoRoom);
    }
    lists::clear(set);
    Ok(())
}
