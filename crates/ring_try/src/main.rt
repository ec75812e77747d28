// What a ring of words does for a clock that only goes on, printed and compared with a stored output: runs one after the other, one that is
// made longer, those that lapse, what belongs in between, the ring that goes round, and the room ahead.
#![tactic(auto)]

ghost use Rattle.ring.specs.Ring.{Rolling};

use numbers::{MAX, MOST_RUNS};
use ring::{Outlook, RING_WORDS};
use show::{instant, interval, text};

// As many runs as a ring has places, and more.
const FULL: u64 = MOST_RUNS as u64;

const MORE: u64 = FULL + 6;

// The place of the oldest run, and the number of runs with the oldest and the newest.
fn look(rt: &(impl Print + Eprint), set: &[u64])
    requires { Rolling set.now }
{
    text(rt, b"place ");
    instant(rt, set[1]);
    text(rt, b", ");
    instant(rt, ring::count(set));
    if set[0] == 0 {
        text(rt, b" runs\n");
        return;
    }
    let turn = set[1] as usize;
    text(rt, b" runs from ");
    interval(rt, set[2 * turn + 2], set[2 * turn + 3]);
    text(rt, b" to ");
    interval(rt, ring::newest_lower(set), ring::newest_upper(set));
    text(rt, b"\n");
}

fn answer(rt: &(impl Print + Eprint), yes: bool) {
    if yes {
        text(rt, b"yes");
        return;
    }
    text(rt, b"no");
}

fn ask(rt: &(impl Print + Eprint), set: &[u64], t: u64)
    requires { Rolling set.now }
{
    text(rt, b"  contains ");
    instant(rt, t);
    text(rt, b": ");
    answer(rt, ring::contains(set, t));
    text(rt, b", covers from there: ");
    answer(rt, ring::covers(set, t));
    text(rt, b"\n");
}

// A step of a clock to `t`: a look ahead, and where there is room what ended before `t` goes and `lower ..= upper` comes.
fn stepped(set: &mut [u64], t: u64, lower: u64, upper: u64) -> Outlook
    requires { Rolling set.old }
    ensures { Rolling set.new }
{
    let ahead = ring::look_ahead(set, t, lower, upper);
    if ahead.room {
        ring::drop_before(set, t);
        ring::add(set, lower, upper);
    }
    ahead
}

// The step with what the look ahead said, and up to when nothing begins or ends after it.
fn step(rt: &(impl Print + Eprint), set: &mut [u64], t: u64, lower: u64, upper: u64)
    requires { Rolling set.old }
    ensures { Rolling set.new }
{
    text(rt, b"  at ");
    instant(rt, t);
    text(rt, b" add ");
    interval(rt, lower, upper);
    let ahead = stepped(set, t, lower, upper);
    text(rt, b": here ");
    answer(rt, ahead.here);
    text(rt, b", room ");
    answer(rt, ahead.room);
    text(rt, b", rests until ");
    instant(rt, ring::rests_until(set, t));
    text(rt, b", ");
    look(rt, set);
}

fn clear(rt: &(impl Print + Eprint), set: &mut [u64])
    requires { Rolling set.old }
    ensures { Rolling set.new }
{
    ring::clear(set);
    text(rt, b"  clear: ");
    look(rt, set);
}

fn first_runs(rt: &(impl Print + Eprint), set: &mut [u64])
    requires { Rolling set.old }
    ensures { Rolling set.new }
{
    text(rt, b"one after the other\n  none: ");
    look(rt, set);
    ask(rt, set, 0);
    step(rt, set, 0, 3, 2);
    step(rt, set, 0, 0, 1);
    step(rt, set, 1, 4, 6);
    step(rt, set, 1, 10, 20);
    for t in [3, 4, 6, 21] {
        ask(rt, set, t);
    }
}

fn longer(rt: &(impl Print + Eprint), set: &mut [u64])
    requires { Rolling set.old }
    ensures { Rolling set.new }
{
    text(rt, b"made longer\n");
    step(rt, set, 1, 12, 18);
    step(rt, set, 1, 21, 30);
    ask(rt, set, 30);
    step(rt, set, 1, 15, MAX);
    ask(rt, set, 9);
    ask(rt, set, 10);
}

// A run that ends at the clock stays, one that ended before it goes, and none of the others moves.
fn lapses(rt: &(impl Print + Eprint), set: &mut [u64])
    requires { Rolling set.old }
    ensures { Rolling set.new }
{
    text(rt, b"lapses\n");
    step(rt, set, 2, 3, 2);
    step(rt, set, 6, 3, 2);
    step(rt, set, 7, 3, 2);
    step(rt, set, 10, 3, 2);
}

// No clock that only goes on comes to this: an interval between two runs, one that joins them, and one that takes in all.
fn between(rt: &(impl Print + Eprint), set: &mut [u64])
    requires { Rolling set.old }
    ensures { Rolling set.new }
{
    text(rt, b"in between\n");
    clear(rt, set);
    step(rt, set, 0, 0, 1);
    step(rt, set, 0, 30, 40);
    step(rt, set, 0, 10, 20);
    ask(rt, set, 15);
    ask(rt, set, 25);
    step(rt, set, 0, 21, 29);
    ask(rt, set, 25);
    step(rt, set, 0, 0, 100);
}

// A clock that at each step adds a run 40 ahead of it: eleven are there at a time, and in all more than there are places.
fn go_on(rt: &(impl Print + Eprint), set: &mut [u64])
    requires { Rolling set.old }
    ensures { Rolling set.new }
{
    clear(rt, set);
    for i in 0..MORE {
        stepped(set, 4 * i, 4 * i + 40, 4 * i + 41);
    }
    text(rt, b"  70 in all: ");
    look(rt, set);
}

fn goes_round(rt: &(impl Print + Eprint), set: &mut [u64])
    requires { Rolling set.old }
    ensures { Rolling set.new }
{
    text(rt, b"goes round\n");
    go_on(rt, set);
    for t in [275, 276, 285, 287, 288, 317, 318] {
        ask(rt, set, t);
    }
    step(rt, set, 286, 400, MAX);
    ask(rt, set, 400);
}

// Every other instant from 0 on: each place has a run.
fn fill(rt: &(impl Print + Eprint), set: &mut [u64])
    requires { Rolling set.old }
    ensures { Rolling set.new }
{
    clear(rt, set);
    for i in 0..FULL {
        stepped(set, 0, 2 * i, 2 * i);
    }
    text(rt, b"  filled: ");
    look(rt, set);
}

// A full ring has room for what joins a run, and for one run more where the oldest lapses.
fn room(rt: &(impl Print + Eprint), set: &mut [u64])
    requires { Rolling set.old }
    ensures { Rolling set.new }
{
    text(rt, b"room\n");
    fill(rt, set);
    step(rt, set, 0, 128, 128);
    step(rt, set, 0, 127, 127);
    step(rt, set, 1, 129, 129);
    step(rt, set, 1, 131, 131);
    step(rt, set, 2, 3, 3);
    step(rt, set, 2, 131, 131);
}

fn show_all(rt: &(impl Print + Eprint), set: &mut [u64])
    requires { Rolling set.old }
{
    first_runs(rt, set);
    longer(rt, set);
    lapses(rt, set);
    between(rt, set);
    goes_round(rt, set);
    room(rt, set);
    clear(rt, set);
}

// Words that are all 0 hold no run.
fn main(rt: HostRuntime) {
    let mut set = [0u64; RING_WORDS];
    show_all(&rt, &mut set);
}
