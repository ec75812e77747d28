// A call, the number that it handed back, the answers of every property and the count, on one line.
ghost use Rattle.memory.specs.Kept.{Kept};

use crate::words::Words;
use numbers::MOST_ATOMS;
use oracle::{Refusal, SIZE, Tally, Verdict};
use show::{number, text};

// The widest state, with one byte more.
const TOO_WIDE: usize = MOST_ATOMS + 1;

fn verdict(rt: &(impl Print + Eprint), v: Verdict) {
    show::digits(rt, u8::from(v.value), v.early.digit(), v.settled.digit());
}

// The number that was handed back, and the answers.
fn answered(rt: &(impl Print + Eprint), outcome: Result<(), Refusal>, monitor: &[u64; SIZE])
    requires { Kept monitor.now }
{
    text(rt, b": ");
    number(rt, oracle::refused_with(outcome));
    for i in 0..oracle::property_count(monitor) {
        verdict(rt, oracle::of_property(monitor, i));
    }
}

// What a call handed back, which has the count also where it was refused.
fn outcome(rt: &(impl Print + Eprint), made: Tally, monitor: &[u64; SIZE])
    requires { Kept monitor.now }
{
    answered(rt, made.outcome, monitor);
    text(rt, b" ");
    number(rt, made.count);
    text(rt, b"\n");
}

// Loads a book, over whatever stood in the memory.
pub fn load(rt: &(impl Print + Eprint), monitor: &mut [u64; SIZE], book: Words)
    ensures { Kept monitor.new }
{
    let loaded = oracle::load(book.words(), monitor);
    text(rt, b"  load");
    answered(rt, loaded, monitor);
    text(rt, b"\n");
}

pub fn time(rt: &(impl Print + Eprint), monitor: &mut [u64; SIZE], t: u64)
    requires { Kept monitor.old }
    ensures { Kept monitor.new }
{
    let made = oracle::update_time(monitor, t);
    text(rt, b"  t ");
    number(rt, t);
    outcome(rt, made, monitor);
}

fn bytes(rt: &(impl Print + Eprint), state: &[u8]) {
    for byte in state {
        number(rt, u64::from(*byte));
    }
}

pub fn state(rt: &(impl Print + Eprint), monitor: &mut [u64; SIZE], state: &[u8])
    requires { Kept monitor.old }
    ensures { Kept monitor.new }
{
    let made = oracle::update_state(monitor, state);
    text(rt, b"  s ");
    bytes(rt, state);
    outcome(rt, made, monitor);
}

// A state that is too wide, and otherwise good.
pub fn wide_state(rt: &(impl Print + Eprint), monitor: &mut [u64; SIZE])
    requires { Kept monitor.old }
    ensures { Kept monitor.new }
{
    let state = [0u8; TOO_WIDE];
    let made = oracle::update_state(monitor, &state);
    text(rt, b"  s of 257 bytes");
    outcome(rt, made, monitor);
}

// A time and a state in one call.
pub fn stamped(rt: &(impl Print + Eprint), monitor: &mut [u64; SIZE], t: u64, state: &[u8])
    requires { Kept monitor.old }
    ensures { Kept monitor.new }
{
    let made = oracle::update_stamped(monitor, t, state);
    text(rt, b"  t ");
    number(rt, t);
    text(rt, b" s ");
    bytes(rt, state);
    outcome(rt, made, monitor);
}

// The same with a state that is too wide, and otherwise good.
pub fn wide_stamped(rt: &(impl Print + Eprint), monitor: &mut [u64; SIZE], t: u64)
    requires { Kept monitor.old }
    ensures { Kept monitor.new }
{
    let state = [0u8; TOO_WIDE];
    let made = oracle::update_stamped(monitor, t, &state);
    text(rt, b"  t ");
    number(rt, t);
    text(rt, b" s of 257 bytes");
    outcome(rt, made, monitor);
}
