// Additions to a set that is lent, printed and compared with a stored output: P1 to P5, a full set, and what lapses.
#![tactic(auto)]

ghost use Rattle.std.specs.Prelude.{◌<◌, ◌≤◌};
ghost use Rattle.numset.specs.Runs.{Good};

use numbers::{MOST_RUNS, refused_with};
use numset::{Added, NumSet};
use show::{interval, number, runs, text};

// As many runs as a set by value has room for.
const FULL: u64 = MOST_RUNS as u64;

// The addition itself, of which only this is needed here: it gives a set again.
fn added(set: NumSet, lower: u64, upper: u64) -> Added
    requires { Good set.words }
    ensures { Good result.set.words }
{
    lent::added(set, lower, upper)
}

// Adds, and prints the number, the count and the set that came back.
fn add(rt: &(impl Print + Eprint), set: NumSet, lower: u64, upper: u64) -> NumSet
    requires { Good set.words }
    ensures { Good result.words }
{
    let sum = added(set, lower, upper);
    let after = sum.set;
    let words = after.words;
    text(rt, b"  add ");
    interval(rt, lower, upper);
    text(rt, b": ");
    number(rt, refused_with(sum.tally.outcome));
    text(rt, b", count ");
    number(rt, sum.tally.count);
    text(rt, b" ");
    runs(rt, &words);
    after
}

// The drop itself, of which only this is needed here: it gives a set again.
fn dropped(set: NumSet, t: u64) -> NumSet
    requires { Good set.words }
    ensures { Good result.words }
{
    lent::dropped(set, t)
}

// Drops what ends before `t`, and prints the set that came back.
fn drop_before(rt: &(impl Print + Eprint), set: NumSet, t: u64) -> NumSet
    requires { Good set.words }
    ensures { Good result.words }
{
    let after = dropped(set, t);
    let words = after.words;
    text(rt, b"  drop before ");
    number(rt, t);
    text(rt, b": ");
    runs(rt, &words);
    after
}

// What each example starts from.
fn start() -> NumSet
    ensures { Good result.words }
{
    NumSet::from_interval(0, 1)
}

fn first_examples(rt: &(impl Print + Eprint)) {
    text(rt, b"P1\n");
    add(rt, start(), 2, 3);
    text(rt, b"P2\n");
    let apart = add(rt, start(), 4, 5);
    add(rt, apart, 2, 3);
    text(rt, b"P3\n");
    add(rt, start(), 3, 2);
}

fn last_examples(rt: &(impl Print + Eprint)) {
    text(rt, b"P4\n");
    let two = add(rt, start(), 10, 20);
    add(rt, two, 5, 9);
    text(rt, b"P5\n");
    let three = add(rt, two, 30, 40);
    add(rt, three, 15, 29);
}

// Every other instant from 0 on.
fn full() -> NumSet
    ensures { Good result.words }
{
    let mut set = NumSet::empty();
    for i in 0..FULL {
        set = added(set, 2 * i, 2 * i).set;
    }
    set
}

// A full set refuses one more run and stays as it is; what touches a run is joined to it.
fn limit(rt: &(impl Print + Eprint)) {
    text(rt, b"full\n");
    let set = add(rt, full(), 128, 129);
    add(rt, set, 127, 129);
}

// What ends before an instant goes; what ends at it stays.
fn lapses(rt: &(impl Print + Eprint)) {
    text(rt, b"lapses\n");
    let two = add(rt, start(), 10, 20);
    drop_before(rt, two, 1);
    let one = drop_before(rt, two, 20);
    drop_before(rt, one, 21);
}

fn main(rt: HostRuntime) {
    first_examples(&rt);
    last_examples(&rt);
    limit(&rt);
    lapses(&rt);
}
