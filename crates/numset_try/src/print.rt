// A call, and what it gave, on one line.
ghost use Rattle.numset.specs.Runs.{Good};

use numbers::{Refusal, refused_with};
use numset::{NumSet, Tally};
use show::{instant, interval, runs, text};

fn answer(rt: &(impl Print + Eprint), yes: bool) {
    if yes {
        text(rt, b": yes\n");
        return;
    }
    text(rt, b": no\n");
}

fn result(rt: &(impl Print + Eprint), outcome: Result<(), Refusal>, set: &[u64])
    requires { Good set.now }
{
    text(rt, b": ");
    instant(rt, refused_with(outcome));
    text(rt, b" ");
    runs(rt, set);
}

// What an addition hands back.
fn handed(rt: &(impl Print + Eprint), sum: Tally) {
    text(rt, b": ");
    instant(rt, refused_with(sum.outcome));
    text(rt, b", count ");
    instant(rt, sum.count);
}

fn counted(rt: &(impl Print + Eprint), sum: Tally, set: &[u64])
    requires { Good set.now }
{
    handed(rt, sum);
    text(rt, b" ");
    runs(rt, set);
}

pub fn set_to(rt: &(impl Print + Eprint), set: &mut [u64], lower: u64, upper: u64)
    requires { Good set.old }
    ensures { Good set.new }
{
    text(rt, b"  set to ");
    interval(rt, lower, upper);
    let outcome = numset::set_to(set, lower, upper);
    result(rt, outcome, set);
}

// The set's own `add`, of which only this is needed here: it gives a set again.
pub fn added(set: &mut [u64], lower: u64, upper: u64) -> Tally
    requires { Good set.old }
    ensures { Good set.new }
{
    numset::add(set, lower, upper)
}

pub fn add(rt: &(impl Print + Eprint), set: &mut [u64], lower: u64, upper: u64)
    requires { Good set.old }
    ensures { Good set.new }
{
    text(rt, b"  add ");
    interval(rt, lower, upper);
    let sum = added(set, lower, upper);
    counted(rt, sum, set);
}

// Adds, where the set is too long to print whole.
pub fn add_to_many(rt: &(impl Print + Eprint), set: &mut [u64], lower: u64, upper: u64)
    requires { Good set.old }
    ensures { Good set.new }
{
    text(rt, b"  add ");
    interval(rt, lower, upper);
    let sum = added(set, lower, upper);
    handed(rt, sum);
    text(rt, b", ");
    many(rt, set);
}

pub fn clear(rt: &(impl Print + Eprint), set: &mut [u64])
    requires { Good set.old }
    ensures { Good set.new }
{
    numset::clear(set);
    text(rt, b"  clear: ");
    runs(rt, set);
}

// The set's own `drop_before`, of which only this is needed here: it gives a set again.
fn dropped(set: &mut [u64], t: u64)
    requires { Good set.old }
    ensures { Good set.new }
{
    numset::drop_before(set, t);
}

pub fn drop_before(rt: &(impl Print + Eprint), set: &mut [u64], t: u64)
    requires { Good set.old }
    ensures { Good set.new }
{
    text(rt, b"  drop before ");
    instant(rt, t);
    dropped(set, t);
    text(rt, b": ");
    runs(rt, set);
}

// Drops, where the set is too long to print whole.
pub fn drop_of_many(rt: &(impl Print + Eprint), set: &mut [u64], t: u64)
    requires { Good set.old }
    ensures { Good set.new }
{
    text(rt, b"  drop before ");
    instant(rt, t);
    dropped(set, t);
    text(rt, b": ");
    many(rt, set);
}

pub fn ask(rt: &(impl Print + Eprint), set: &[u64], t: u64)
    requires { Good set.now }
{
    text(rt, b"  contains ");
    instant(rt, t);
    answer(rt, numset::contains(set, t));
}

pub fn ask_cover(rt: &(impl Print + Eprint), set: &[u64], from: u64)
    requires { Good set.now }
{
    text(rt, b"  covers ");
    instant(rt, from);
    answer(rt, numset::covers(set, from));
}

pub fn ask_room(rt: &(impl Print + Eprint), set: &[u64], lower: u64, upper: u64)
    requires { Good set.now }
{
    text(rt, b"  has room for ");
    interval(rt, lower, upper);
    answer(rt, numset::has_room(set, lower, upper));
}

// The number of runs, with the first and the last.
pub fn many(rt: &(impl Print + Eprint), set: &[u64])
    requires { Good set.now }
{
    let n = set[0] as usize;
    instant(rt, n as u64);
    if n == 0 {
        text(rt, b" runs\n");
        return;
    }
    text(rt, b" runs from ");
    interval(rt, set[1], set[2]);
    text(rt, b" to ");
    interval(rt, set[2 * n - 1], set[2 * n]);
    text(rt, b"\n");
}

// An addition to a set by value, which is printed before and after.
pub fn add_value(rt: &(impl Print + Eprint), set: NumSet, lower: u64, upper: u64)
    requires { Good set.words }
{
    let before = set.words;
    text(rt, b"  ");
    runs(rt, &before);
    let sum = set.add(lower, upper);
    let after = sum.set;
    let words = after.words;
    text(rt, b"  add ");
    interval(rt, lower, upper);
    counted(rt, sum.tally, &words);
}

// What is left of a set by value.
pub fn drop_value(rt: &(impl Print + Eprint), set: NumSet, t: u64)
    requires { Good set.words }
{
    let left = set.drop_before(t);
    let words = left.words;
    text(rt, b"  drop before ");
    instant(rt, t);
    text(rt, b": ");
    runs(rt, &words);
}

pub fn ask_value(rt: &(impl Print + Eprint), set: NumSet, t: u64)
    requires { Good set.words }
{
    text(rt, b"  contains ");
    instant(rt, t);
    answer(rt, set.contains(t));
    text(rt, b"  covers ");
    instant(rt, t);
    answer(rt, set.covers(t));
}
