// What the set of instants does, printed and compared with a stored output: P1 to P5, the limit, the edges, what lapses, and
// the set by value.
#![tactic(auto)]

mod print; // print.rt: a call, and what it gave, on one line

ghost use Rattle.numset.specs.Runs.{Good};

use numbers::{MAX, MOST_RUNS};
use numset::{NumSet, SET_WORDS};
use print::{
    add, add_to_many, add_value, added, ask, ask_cover, ask_room, ask_value, clear, drop_before,
    drop_of_many, drop_value, many, set_to,
};
use show::text;

// As many runs as a whole set has room for.
const FULL: u64 = MOST_RUNS as u64;

fn first_examples(rt: &(impl Print + Eprint), set: &mut [u64])
    requires { Good set.old }
    ensures { Good set.new }
{
    text(rt, b"P1\n");
    set_to(rt, set, 0, 1);
    add(rt, set, 2, 3);
    text(rt, b"P2\n");
    set_to(rt, set, 0, 1);
    add(rt, set, 4, 5);
    add(rt, set, 2, 3);
}

fn last_examples(rt: &(impl Print + Eprint), set: &mut [u64])
    requires { Good set.old }
    ensures { Good set.new }
{
    text(rt, b"P3\n");
    set_to(rt, set, 0, 1);
    add(rt, set, 3, 2);
    text(rt, b"P4\n");
    set_to(rt, set, 0, 1);
    add(rt, set, 10, 20);
    add(rt, set, 5, 9);
}

fn lost_example(rt: &(impl Print + Eprint), set: &mut [u64])
    requires { Good set.old }
    ensures { Good set.new }
{
    text(rt, b"P5\n");
    set_to(rt, set, 0, 1);
    add(rt, set, 10, 20);
    add(rt, set, 30, 40);
    add(rt, set, 15, 29);
}

// Members at the ends of runs, and beside them.
fn members(rt: &(impl Print + Eprint), set: &mut [u64])
    requires { Good set.old }
    ensures { Good set.new }
{
    text(rt, b"members\n");
    clear(rt, set);
    ask(rt, set, 0);
    add(rt, set, 2, 2);
    add(rt, set, 10, 20);
    add(rt, set, 30, MAX);
    ask_ends(rt, set);
}

fn ask_ends(rt: &(impl Print + Eprint), set: &[u64])
    requires { Good set.now }
{
    for t in [0, 1, 2, 3, 9, 10, 20, 21, 29, 30, MAX] {
        ask(rt, set, t);
    }
}

fn coverage(rt: &(impl Print + Eprint), set: &mut [u64])
    requires { Good set.old }
    ensures { Good set.new }
{
    text(rt, b"coverage\n");
    clear(rt, set);
    ask_cover(rt, set, MAX);
    add(rt, set, 0, 3);
    ask_cover(rt, set, 0);
    add(rt, set, 5, MAX);
    ask_cover(rt, set, 4);
    ask_cover(rt, set, 5);
    ask_cover(rt, set, 6);
    ask_cover(rt, set, MAX);
    set_to(rt, set, 5, MAX - 1);
    ask_cover(rt, set, 5);
    ask_cover(rt, set, MAX);
}

// The first and the last instant: nothing wraps.
fn ends(rt: &(impl Print + Eprint), set: &mut [u64])
    requires { Good set.old }
    ensures { Good set.new }
{
    text(rt, b"ends\n");
    set_to(rt, set, 0, 0);
    add(rt, set, MAX, MAX);
    add(rt, set, 1, 1);
    add(rt, set, MAX - 1, MAX - 1);
    add(rt, set, 9, MAX);
}

// All instants at once, then none.
fn whole(rt: &(impl Print + Eprint), set: &mut [u64])
    requires { Good set.old }
    ensures { Good set.new }
{
    text(rt, b"whole\n");
    add(rt, set, 0, MAX);
    add(rt, set, 0, 0);
    add(rt, set, MAX, MAX);
    add(rt, set, MAX, 0);
    set_to(rt, set, MAX, 0);
}

// Neighbours on either side, and one instant short of them.
fn neighbours(rt: &(impl Print + Eprint), set: &mut [u64])
    requires { Good set.old }
    ensures { Good set.new }
{
    text(rt, b"neighbours\n");
    set_to(rt, set, 50, 60);
    add(rt, set, 48, 49);
    add(rt, set, 45, 46);
    add(rt, set, 61, 62);
    add(rt, set, 64, 65);
    add(rt, set, 63, 63);
}

// Runs that are met in part, wholly, or not at all.
fn overlaps(rt: &(impl Print + Eprint), set: &mut [u64])
    requires { Good set.old }
    ensures { Good set.new }
{
    text(rt, b"overlaps\n");
    add(rt, set, 47, 47);
    add(rt, set, 30, 40);
    add(rt, set, 10, 20);
    add(rt, set, 15, 35);
    add(rt, set, 12, 18);
    add(rt, set, 0, 100);
}

// Every other instant from 0 on: the set is full.
fn fill(rt: &(impl Print + Eprint), set: &mut [u64])
    requires { Good set.old }
    ensures { Good set.new }
{
    clear(rt, set);
    for i in 0..FULL {
        added(set, 2 * i, 2 * i);
    }
    text(rt, b"  filled: ");
    many(rt, set);
}

// 64 runs and no more, in a set of 129 words.
fn limit(rt: &(impl Print + Eprint), set: &mut [u64])
    requires { Good set.old }
    ensures { Good set.new }
{
    text(rt, b"limit\n");
    fill(rt, set);
    ask_room(rt, set, 128, 128);
    add_to_many(rt, set, 128, 128);
    ask_room(rt, set, 3, 2);
    add_to_many(rt, set, 3, 2);
    ask_room(rt, set, 127, 127);
    add_to_many(rt, set, 127, 127);
    add_to_many(rt, set, 128, 128);
    add_to_many(rt, set, 130, 130);
}

// A full set that an addition joins, in its middle, and one that swallows every run.
fn joined(rt: &(impl Print + Eprint), set: &mut [u64])
    requires { Good set.old }
    ensures { Good set.new }
{
    text(rt, b"joined\n");
    fill(rt, set);
    ask_room(rt, set, 1, 1);
    add_to_many(rt, set, 1, 1);
    add_to_many(rt, set, 128, 130);
    ask_room(rt, set, 0, 1000);
    add(rt, set, 0, 1000);
}

// What ends before an instant goes; what ends at it, or later, stays whole.
fn lapses(rt: &(impl Print + Eprint), set: &mut [u64])
    requires { Good set.old }
    ensures { Good set.new }
{
    text(rt, b"lapses\n");
    set_to(rt, set, 0, 1);
    add(rt, set, 4, 6);
    add(rt, set, 10, 20);
    drop_before(rt, set, 1);
    drop_before(rt, set, 2);
    drop_before(rt, set, 6);
    drop_before(rt, set, 15);
    drop_before(rt, set, 21);
    drop_before(rt, set, MAX);
}

// Several lapse at once; and a run to MAX never does.
fn lapses_together(rt: &(impl Print + Eprint), set: &mut [u64])
    requires { Good set.old }
    ensures { Good set.new }
{
    text(rt, b"lapse together\n");
    set_to(rt, set, 0, 1);
    add(rt, set, 4, 6);
    add(rt, set, 10, 20);
    add(rt, set, 30, MAX);
    drop_before(rt, set, 10);
    drop_before(rt, set, MAX);
}

// 64 runs, of which one lapses: that makes room for one more.
fn room_again(rt: &(impl Print + Eprint), set: &mut [u64])
    requires { Good set.old }
    ensures { Good set.new }
{
    text(rt, b"room again\n");
    fill(rt, set);
    drop_of_many(rt, set, 0);
    drop_of_many(rt, set, 1);
    add_to_many(rt, set, 128, 128);
    add_to_many(rt, set, 130, 130);
    drop_of_many(rt, set, 127);
    drop_of_many(rt, set, 129);
}

// Words for no run.
fn no_run(rt: &(impl Print + Eprint), set: &mut [u64])
    requires { Good set.old }
    ensures { Good set.new }
{
    text(rt, b"room for no run\n");
    set_to(rt, set, 1, 2);
    add(rt, set, 1, 2);
    add(rt, set, 2, 1);
    set_to(rt, set, 2, 1);
}

fn one_run(rt: &(impl Print + Eprint), set: &mut [u64])
    requires { Good set.old }
    ensures { Good set.new }
{
    text(rt, b"room for one run\n");
    set_to(rt, set, 4, 6);
    add(rt, set, 8, 9);
    add(rt, set, 7, 9);
    set_to(rt, set, 0, 0);
}

fn two_runs(rt: &(impl Print + Eprint), set: &mut [u64])
    requires { Good set.old }
    ensures { Good set.new }
{
    text(rt, b"room for two runs\n");
    add(rt, set, 0, 1);
    add(rt, set, 10, 20);
    ask_room(rt, set, 5, 8);
    add(rt, set, 5, 8);
    add(rt, set, 5, 9);
}

fn small(rt: &(impl Print + Eprint)) {
    let mut none = [0u64; 1];
    no_run(rt, &mut none);
    let mut one = [0u64; 3];
    one_run(rt, &mut one);
    let mut two = [0u64; 5];
    two_runs(rt, &mut two);
}

fn by_value(rt: &(impl Print + Eprint)) {
    text(rt, b"by value\n");
    add_value(rt, NumSet::empty(), 3, 2);
    add_value(rt, NumSet::from_interval(3, 2), 5, 5);
    add_value(rt, NumSet::from_interval(0, 1), 2, 3);
    add_value(rt, NumSet::from_interval(10, MAX), 0, 3);
    ask_value(rt, NumSet::from_interval(10, MAX), 9);
    ask_value(rt, NumSet::from_interval(10, MAX), 10);
    drop_value(rt, NumSet::from_interval(3, 5), 5);
    drop_value(rt, NumSet::from_interval(3, 5), 6);
}

fn examples(rt: &(impl Print + Eprint), set: &mut [u64])
    requires { Good set.old }
    ensures { Good set.new }
{
    first_examples(rt, set);
    last_examples(rt, set);
    lost_example(rt, set);
    members(rt, set);
    coverage(rt, set);
}

fn edges(rt: &(impl Print + Eprint), set: &mut [u64])
    requires { Good set.old }
    ensures { Good set.new }
{
    ends(rt, set);
    whole(rt, set);
    neighbours(rt, set);
    overlaps(rt, set);
    limit(rt, set);
    joined(rt, set);
}

fn old_runs(rt: &(impl Print + Eprint), set: &mut [u64])
    requires { Good set.old }
    ensures { Good set.new }
{
    lapses(rt, set);
    lapses_together(rt, set);
    room_again(rt, set);
}

// The words may hold anything at first.
fn show_all(rt: &(impl Print + Eprint), set: &mut [u64]) {
    let Ok(()) = numset::empty(set) else {
        return;
    };
    examples(rt, set);
    edges(rt, set);
    old_runs(rt, set);
    small(rt);
    by_value(rt);
}

fn main(rt: HostRuntime) {
    let mut set = [7u64; SET_WORDS];
    show_all(&rt, &mut set);
}
