// What the programs that try the crates print alike, on standard output. Where printing fails, console says so.
#![tactic(auto)]

ghost use Rattle.std.specs.Prelude.{◌<◌, ◌≤◌};
ghost use Rattle.numset.specs.Runs.{Good};

use numbers::MAX;
use std::fmt;
use std::fmt::Display;

// An instant; the last one is printed by its name.
#[derive(Clone, Copy)]
struct Moment(u64);

impl Display for Moment {
    fn fmt<W: fmt::Write>(&self, f: &mut fmt::Formatter<W>) -> fmt::Result {
        if self.0 == MAX {
            write!(f, "MAX")
        } else {
            write!(f, "{}", self.0)
        }
    }
}

pub fn text(rt: &(impl Print + Eprint), bytes: &[u8]) {
    console::print(rt, bytes);
}

pub fn value(rt: &(impl Print + Eprint), value: impl Display + Drop) {
    console::print_value(rt, value);
}

// A number in decimal.
pub fn number(rt: &(impl Print + Eprint), n: u64) {
    value(rt, n);
}

pub fn instant(rt: &(impl Print + Eprint), t: u64) {
    value(rt, Moment(t));
}

// Each part is printed by itself, here and below: where standard output fails, console complains of each.
pub fn interval(rt: &(impl Print + Eprint), lower: u64, upper: u64) {
    text(rt, b"[");
    instant(rt, lower);
    text(rt, b",");
    instant(rt, upper);
    text(rt, b"]");
}

// The runs of a set, the oldest first, and a line feed.
pub fn runs(rt: &(impl Print + Eprint), set: &[u64])
    requires { Good set.now }
{
    let n = set[0] as usize;
    text(rt, b"{");
    for j in 0..n {
        if 0 < j {
            text(rt, b",");
        }
        interval(rt, set[2 * j + 1], set[2 * j + 2]);
    }
    text(rt, b"}\n");
}

// The three digits of a property, after a space.
pub fn digits(rt: &(impl Print + Eprint), value: u8, early: u8, settled: u8) {
    text(rt, b" ");
    for digit in [value, early, settled] {
        number(rt, u64::from(digit));
    }
}
