// Reads standard input and prints its report, for the programs that load a book in one way or the other.
#![tactic(auto)]

ghost use Rattle.std.specs.Prelude.{◌≡◌, true, length};
ghost use Rattle.reporter.specs.Rooms.{SHORT_REPORT, holds, one_holds};

use book::loading::Loading;
use numbers::{LONGEST_INPUT, LONGEST_REPORT};

// A byte more than the longest input that is read, so that a longer one is seen to be longer.
const ROOM: usize = LONGEST_INPUT + 1;

// Most reports fit into as much.
const SHORT_REPORT: usize = 65536;

// An input so long has a short report.
const SHORT_INPUT: usize = 1864;

// The rooms for a report, by number: `show` calls itself with the one below, and of an enum it would want the number beside it.
const SHORT: u64 = 0;

const LONG: u64 = 1;

// The largest room that the report of an input can need.
fn largest_room(way: Loading, input: &[u8]) -> u64
    ensures { one_holds way result input.now ≡ true }
{
    if input.len() <= SHORT_INPUT {
        SHORT
    } else {
        LONG
    }
}

// Prints the report if it fits into `out`, and answers whether it did.
fn shown(rt: &(impl Print + Eprint), way: Loading, input: &[u8], out: &mut [u8]) -> bool
    ensures { result ≡ holds way (length out.old) input.now }
{
    let length = report::report_by(way, input, out) as usize;
    if out.len() < length {
        return false;
    }
    console::print(rt, &out[..length]);
    true
}

fn show_short(rt: &(impl Print + Eprint), way: Loading, input: &[u8]) -> bool
    ensures { result ≡ holds way SHORT_REPORT input.now }
{
    let mut out = [0u8; SHORT_REPORT];
    shown(rt, way, input, &mut out)
}

// The long room holds every report.
fn show_long(rt: &(impl Print + Eprint), way: Loading, input: &[u8]) -> bool
    ensures { result ≡ true }
{
    let mut out = [0u8; LONGEST_REPORT];
    shown(rt, way, input, &mut out)
}

// Prints the report, in the smallest of the rooms up to `room` that holds it, and answers whether one did. It calls
// itself, so the compiler leaves the long room in a frame of its own, which is made only where it is needed.
fn show(rt: &(impl Print + Eprint), way: Loading, input: &[u8], room: u64) -> bool
    ensures { result ≡ one_holds way room input.now }
{
    if room == SHORT {
        return show_short(rt, way, input);
    }
    show(rt, way, input, room - 1) || show_long(rt, way, input)
}

// Prints the report: a room always holds it.
fn show_report(rt: &(impl Print + Eprint), way: Loading, input: &[u8]) -> bool
    ensures { result ≡ true }
{
    show(rt, way, input, largest_room(way, input))
}

// What a program does: standard input to its end, and the report of it, its book loaded in this way.
pub fn run(rt: &(impl Input + Print + Eprint), way: Loading) {
    let mut input = [0u8; ROOM];
    let Some(n) = console::read_all(rt, &mut input) else {
        return;
    };
    show_report(rt, way, &input[..n]);
}
