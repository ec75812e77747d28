// Examples of REFERENCE that are run and not proved, each refusal of a call, and early answers where the lower bound is above 0.
// Each call has a line with the number that it handed back and, for each property, value, early and settled: 2 is open.
#![tactic(auto)]

mod play;
mod words;

ghost use Rattle.memory.specs.Kept.{Kept};

use numbers::{LAST_TIME, MAX};
use oracle::{Kind, SIZE};
use play::{load, stamped, state, time, wide_stamped};
use show::text;
use words::Words;

// A run for every second instant from 0 up to this one makes a full set.
const FULL: u64 = 126;

fn whole_case(rt: &(impl Print + Eprint)) {
    text(rt, b"The whole case: Historically[0,MAX] Once[0,MAX] a0\n");
    let book = Words::of(3)
        .row(Kind::Atom, 0, 0, 0)
        .row(Kind::Once, 1, 0, MAX)
        .row(Kind::Historically, 1, 0, MAX)
        .section(&[0, 1])
        .section(&[])
        .section(&[2]);
    let mut monitor = [0u64; SIZE];
    load(rt, &mut monitor, book);
    state(rt, &mut monitor, &[0]);
    time(rt, &mut monitor, 1);
    state(rt, &mut monitor, &[1]);
    time(rt, &mut monitor, 5);
}

// The argument is settled false, but the set is not empty: settled stays open, even when the range is left.
// The last instant of its set is 5: at 5 it is not gone, at 6 it is, and the rule settles false.
fn lapsed(rt: &(impl Print + Eprint)) {
    text(rt, b"Once[0,5] Historically[0,MAX] a0\n");
    let book = Words::of(3)
        .row(Kind::Atom, 0, 0, 0)
        .row(Kind::Historically, 1, 0, MAX)
        .row(Kind::Once, 1, 0, 5)
        .section(&[0, 1])
        .section(&[])
        .section(&[2]);
    let mut monitor = [0u64; SIZE];
    load(rt, &mut monitor, book);
    state(rt, &mut monitor, &[1]);
    state(rt, &mut monitor, &[0]);
    time(rt, &mut monitor, 5);
    time(rt, &mut monitor, 6);
}

// The last instant of its set is 5: at 5 it is not gone, at 6 it is, and the rule settles true.
fn lapsed_historically(rt: &(impl Print + Eprint)) {
    text(rt, b"Historically[0,5] Once[0,MAX] a0\n");
    let book = Words::of(3)
        .row(Kind::Atom, 0, 0, 0)
        .row(Kind::Once, 1, 0, MAX)
        .row(Kind::Historically, 1, 0, 5)
        .section(&[0, 1])
        .section(&[])
        .section(&[2]);
    let mut monitor = [0u64; SIZE];
    load(rt, &mut monitor, book);
    state(rt, &mut monitor, &[0]);
    state(rt, &mut monitor, &[1]);
    time(rt, &mut monitor, 5);
    time(rt, &mut monitor, 6);
}

fn lapsed_since(rt: &(impl Print + Eprint)) {
    text(rt, b"Since(a1, Historically[0,MAX] a0)[0,5]\n");
    let book = Words::of(4)
        .row(Kind::Atom, 0, 0, 0)
        .row(Kind::Historically, 1, 0, MAX)
        .row(Kind::Atom, 1, 0, 0)
        .row(Kind::Since, 2, 0, 5)
        .section(&[0, 2, 1])
        .section(&[])
        .section(&[3]);
    let mut monitor = [0u64; SIZE];
    load(rt, &mut monitor, book);
    state(rt, &mut monitor, &[1, 1]);
    state(rt, &mut monitor, &[0, 1]);
    time(rt, &mut monitor, 5);
    time(rt, &mut monitor, 6);
}

// The range begins two instants after the call: until 5 something of it is ahead.
fn lapsed_later(rt: &(impl Print + Eprint)) {
    text(rt, b"Once[2,5] Historically[0,MAX] a0\n");
    let book = Words::of(3)
        .row(Kind::Atom, 0, 0, 0)
        .row(Kind::Historically, 1, 0, MAX)
        .row(Kind::Once, 1, 2, 5)
        .section(&[0, 1])
        .section(&[])
        .section(&[2]);
    let mut monitor = [0u64; SIZE];
    load(rt, &mut monitor, book);
    state(rt, &mut monitor, &[1]);
    state(rt, &mut monitor, &[0]);
    time(rt, &mut monitor, 5);
    time(rt, &mut monitor, 6);
}

// Once a0 over a range.
fn once_over(lower: u64, upper: u64) -> Words {
    Words::of(2)
        .row(Kind::Atom, 0, 0, 0)
        .row(Kind::Once, 1, lower, upper)
        .section(&[0])
        .section(&[])
        .section(&[1])
}

// A time call at every second instant.
fn fill(rt: &(impl Print + Eprint), monitor: &mut [u64; SIZE])
    requires { Kept monitor.old }
    ensures { Kept monitor.new }
{
    for t in (2..=FULL).step_by(2) {
        time(rt, monitor, t);
    }
}

// Each call adds the instant at which it is made, and at the next call that is over.
fn over(rt: &(impl Print + Eprint)) {
    text(rt, b"Once[0,0] a0, a run for each of 65 calls and more\n");
    let mut monitor = [0u64; SIZE];
    load(rt, &mut monitor, once_over(0, 0));
    state(rt, &mut monitor, &[1]);
    fill(rt, &mut monitor);
    time(rt, &mut monitor, 128);
    time(rt, &mut monitor, 127);
    time(rt, &mut monitor, 1000);
}

// Each call adds an instant that is ahead of all calls up to 128: there a full set refuses one more run. At 129 the oldest run is over.
fn full(rt: &(impl Print + Eprint)) {
    text(rt, b"Once[128,128] a0, up to 64 runs\n");
    let mut monitor = [0u64; SIZE];
    load(rt, &mut monitor, once_over(128, 128));
    state(rt, &mut monitor, &[1]);
    fill(rt, &mut monitor);
    time(rt, &mut monitor, 128);
    time(rt, &mut monitor, 128);
    time(rt, &mut monitor, 129);
    time(rt, &mut monitor, 130);
}

// The run from 0 to 5 is there at 5 and over at 6. That from 6 to 11 is over at 12, where one begins that touches it.
fn touched(rt: &(impl Print + Eprint)) {
    text(rt, b"Once[0,5] a0, at the ends of its runs\n");
    let mut monitor = [0u64; SIZE];
    load(rt, &mut monitor, once_over(0, 5));
    state(rt, &mut monitor, &[1]);
    state(rt, &mut monitor, &[0]);
    time(rt, &mut monitor, 5);
    time(rt, &mut monitor, 6);
    state(rt, &mut monitor, &[1]);
    time(rt, &mut monitor, 12);
    state(rt, &mut monitor, &[0]);
    time(rt, &mut monitor, 17);
    time(rt, &mut monitor, 18);
}

fn last_time(rt: &(impl Print + Eprint)) {
    text(rt, b"Once[0,0] a0, at the last time\n");
    let mut monitor = [0u64; SIZE];
    load(rt, &mut monitor, once_over(0, 0));
    state(rt, &mut monitor, &[1]);
    time(rt, &mut monitor, LAST_TIME);
    time(rt, &mut monitor, LAST_TIME + 1);
    state(rt, &mut monitor, &[0]);
}

// Calls that are refused, between answers that must stay as they were.
fn refused_calls(rt: &(impl Print + Eprint)) {
    text(
        rt,
        b"Since(a0,a1)[0,MAX] and Once[5,5] a1, with calls that are refused\n",
    );
    let book = Words::of(5)
        .row(Kind::Atom, 0, 0, 0)
        .row(Kind::Atom, 1, 0, 0)
        .row(Kind::Since, 2, 0, MAX)
        .row(Kind::Atom, 1, 0, 0)
        .row(Kind::Once, 1, 5, 5)
        .section(&[0, 1, 3])
        .section(&[2])
        .section(&[4]);
    let mut monitor = [0u64; SIZE];
    load(rt, &mut monitor, book);
    state(rt, &mut monitor, &[0, 1]);
    state(rt, &mut monitor, &[1, 0]);
    time(rt, &mut monitor, 5);
    refusals(rt, &mut monitor);
    time(rt, &mut monitor, 5);
    state(rt, &mut monitor, &[0, 0]);
}

fn refusals(rt: &(impl Print + Eprint), monitor: &mut [u64; SIZE])
    requires { Kept monitor.old }
    ensures { Kept monitor.new }
{
    time(rt, monitor, 4);
    time(rt, monitor, LAST_TIME + 1);
    play::wide_state(rt, monitor);
    state(rt, monitor, &[0]);
    state(rt, monitor, &[0, 1, 0]);
    state(rt, monitor, &[0, 1, 2]);
    state(rt, monitor, &[0, 2]);
}

// The first call sees the old state at its time. Then each refusal of a stamped call in its order, the last two for room: where only the
// time step lacks it, since the state step would drop the set, and where only the state step does. A time below 128 shows that nothing
// was kept of them.
fn stamped_calls(rt: &(impl Print + Eprint)) {
    text(
        rt,
        b"Since(a0,a1)[128,128] and Historically[0,0] a0, with stamped calls\n",
    );
    let book = Words::of(5)
        .row(Kind::Atom, 0, 0, 0)
        .row(Kind::Atom, 1, 0, 0)
        .row(Kind::Since, 2, 128, 128)
        .row(Kind::Atom, 0, 0, 0)
        .row(Kind::Historically, 1, 0, 0)
        .section(&[0, 1, 3])
        .section(&[])
        .section(&[2, 4]);
    let mut monitor = [0u64; SIZE];
    load(rt, &mut monitor, book);
    stamped(rt, &mut monitor, 0, &[1, 1]);
    fill(rt, &mut monitor);
    wide_stamped(rt, &mut monitor, 125);
    wide_stamped(rt, &mut monitor, LAST_TIME + 1);
    wide_stamped(rt, &mut monitor, 127);
    stamped(rt, &mut monitor, 127, &[2]);
    stamped(rt, &mut monitor, 127, &[1, 1, 2]);
    stamped(rt, &mut monitor, 127, &[1, 2]);
    stamped(rt, &mut monitor, 128, &[0, 0]);
    time(rt, &mut monitor, 126);
    state(rt, &mut monitor, &[1, 0]);
    stamped(rt, &mut monitor, 128, &[1, 1]);
    time(rt, &mut monitor, 127);
    stamped(rt, &mut monitor, 128, &[0, 0]);
}

// A refused book gives an empty one, which takes calls: it has no atom, so its states have no byte.
fn refused_book(rt: &(impl Print + Eprint)) {
    text(rt, b"A book of one row that is not there\n");
    let mut monitor = [0u64; SIZE];
    load(rt, &mut monitor, Words::of(1));
    time(rt, &mut monitor, 3);
    state(rt, &mut monitor, &[1]);
    state(rt, &mut monitor, b"");
    time(rt, &mut monitor, 2);
}

// Time before the lower bound of 1, at it, and past an upper bound of 5.
fn before_and_after(rt: &(impl Print + Eprint), book: Words) {
    let mut monitor = [0u64; SIZE];
    load(rt, &mut monitor, book);
    time(rt, &mut monitor, 0);
    time(rt, &mut monitor, 1);
    time(rt, &mut monitor, 7);
}

// Early answers of Once and Historically where the argument decides only with lower 0.
fn early_of_one(rt: &(impl Print + Eprint)) {
    text(
        rt,
        b"Once[1,5] True, Once[1,MAX] True, Historically[1,5] False, Historically[1,MAX] False\n",
    );
    let book = Words::of(8)
        .row(Kind::True, 0, 0, 0)
        .row(Kind::Once, 1, 1, 5)
        .row(Kind::True, 0, 0, 0)
        .row(Kind::Once, 1, 1, MAX)
        .row(Kind::False, 0, 0, 0)
        .row(Kind::Historically, 1, 1, 5)
        .row(Kind::False, 0, 0, 0)
        .row(Kind::Historically, 1, 1, MAX)
        .section(&[0, 2, 4, 6])
        .section(&[])
        .section(&[1, 3, 5, 7]);
    before_and_after(rt, book);
}

// The same where it decides with any lower.
fn early_at_once(rt: &(impl Print + Eprint)) {
    text(
        rt,
        b"Once[1,5] False, Historically[1,5] True, Since(True,False)[1,MAX]\n",
    );
    let book = Words::of(7)
        .row(Kind::False, 0, 0, 0)
        .row(Kind::Once, 1, 1, 5)
        .row(Kind::True, 0, 0, 0)
        .row(Kind::Historically, 1, 1, 5)
        .row(Kind::True, 0, 0, 0)
        .row(Kind::False, 0, 0, 0)
        .row(Kind::Since, 2, 1, MAX)
        .section(&[0, 2, 4, 5])
        .section(&[])
        .section(&[1, 3, 6]);
    before_and_after(rt, book);
}

// Since whose left is a constant. Where it is false, each call empties the set of what was there before.
fn early_of_two(rt: &(impl Print + Eprint)) {
    text(rt, b"Since(False,True)[1,MAX], Since(True,True)[1,MAX]\n");
    let book = Words::of(6)
        .row(Kind::False, 0, 0, 0)
        .row(Kind::True, 0, 0, 0)
        .row(Kind::Since, 2, 1, MAX)
        .row(Kind::True, 0, 0, 0)
        .row(Kind::True, 0, 0, 0)
        .row(Kind::Since, 2, 1, MAX)
        .section(&[0, 1, 3, 4])
        .section(&[])
        .section(&[2, 5]);
    before_and_after(rt, book);
}

// Since whose left is early false while it holds, so that the set can cover: false with lower 0, open with lower over 0.
fn early_turned(rt: &(impl Print + Eprint)) {
    text(
        rt,
        b"Since(left,True)[1,MAX] and Since(left,True)[0,MAX], left = Not Historically[0,MAX] Once[0,MAX] a0\n",
    );
    let book = Words::of(12)
        .row(Kind::Atom, 0, 0, 0)
        .row(Kind::Once, 1, 0, MAX)
        .row(Kind::Historically, 1, 0, MAX)
        .row(Kind::Not, 1, 0, 0)
        .row(Kind::True, 0, 0, 0)
        .row(Kind::Since, 2, 1, MAX)
        .row(Kind::Atom, 0, 0, 0)
        .row(Kind::Once, 1, 0, MAX)
        .row(Kind::Historically, 1, 0, MAX)
        .row(Kind::Not, 1, 0, 0)
        .row(Kind::True, 0, 0, 0)
        .row(Kind::Since, 2, 0, MAX)
        .section(&[0, 1, 2, 3, 4, 6, 7, 8, 9, 10])
        .section(&[])
        .section(&[5, 11]);
    let mut monitor = [0u64; SIZE];
    load(rt, &mut monitor, book);
    time(rt, &mut monitor, 0);
    state(rt, &mut monitor, &[1]);
    time(rt, &mut monitor, 1);
    time(rt, &mut monitor, 2);
}

fn main(rt: HostRuntime) {
    whole_case(&rt);
    lapsed(&rt);
    lapsed_historically(&rt);
    lapsed_since(&rt);
    lapsed_later(&rt);
    over(&rt);
    full(&rt);
    touched(&rt);
    last_time(&rt);
    refused_calls(&rt);
    stamped_calls(&rt);
    refused_book(&rt);
    early_of_one(&rt);
    early_at_once(&rt);
    early_of_two(&rt);
    early_turned(&rt);
}
