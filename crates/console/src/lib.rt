// Standard input and standard output, for every program. Whatever fails here is said in a line on standard error.
#![tactic(auto)]

ghost use Rattle.std.specs.Prelude.{length};
ghost use Rattle.console.specs.Input.{Within};

use std::fmt::Display;
use std::io;
use std::io::Read;

// Reads once, as much as is there and fits, and answers with how many bytes: none at the end of the input. No answer: the read failed.
pub fn read_some(rt: &impl Eprint, from: &mut impl Read, room: &mut [u8]) -> Option<usize>
    ensures { Within (length room.old) result }
{
    match from.read(room) {
        Ok(count) => Some(count),
        Err(error) => {
            fail(rt, "standard input", error);
            None
        }
    }
}

// Reads until the input ends or `input` is full. It stays a `while`: a turn goes on by as many bytes as came, which no `for` counts.
pub fn fill(rt: &impl Eprint, from: &mut impl Read, input: &mut [u8]) -> Option<usize>
    ensures { Within (length input.old) result }
{
    let mut n = 0;
    while n < input.len() {
        let count = read_some(rt, from, &mut input[n..])?;
        if count == 0 {
            break;
        }
        n += count;
    }
    Some(n)
}

// Reads what is left and drops it, so that whoever writes it can finish. A proved loop has to end: it counts its turns down from a number
// that no run uses up. It stays a `while`: the edit `endless_drain`, which takes the count away, is refused by what a turn has to lessen,
// while of a `for` no such edit can be made.
pub fn drain(rt: &impl Eprint, from: &mut impl Read) {
    let mut room = [0u8; 4096];
    let mut turns = u64::MAX;
    while 0 < turns {
        if let None | Some(0) = read_some(rt, from, &mut room) {
            return;
        }
        turns -= 1;
    }
}

// Reads the input to its end: what fits is kept, and the rest is dropped.
pub fn read_all(rt: &(impl Input + Eprint), input: &mut [u8]) -> Option<usize>
    ensures { Within (length input.old) result }
{
    let mut from = rt.reader();
    let came = fill(rt, &mut from, input);
    if came == Some(input.len()) {
        drain(rt, &mut from);
    }
    came
}

// Prints all of `bytes`, and answers whether that was done.
pub fn print(rt: &(impl Print + Eprint), bytes: &[u8]) -> bool {
    done(rt, rt.write_all(bytes))
}

// Prints `value`, and answers whether that was done.
pub fn print_value(rt: &(impl Print + Eprint), value: impl Display + Drop) -> bool {
    done(rt, rt.print(value))
}

fn done(rt: &impl Eprint, printed: io::Result<()>) -> bool {
    match printed {
        Ok(()) => true,
        Err(error) => {
            fail(rt, "standard output", error);
            false
        }
    }
}

// Says on standard error what failed, and how. Nothing is left to do where that fails.
fn fail(rt: &impl Eprint, what: &str, error: io::Error) {
    let _ = eprintln!(rt; "{what}: {error}");
}

// Says `line` on standard error: its text, or where it is none, each byte as a character or an escape. Nothing is left to do
// where that fails.
pub fn complain(rt: &impl Eprint, line: &[u8]) {
    let _ = match str::from_utf8(line) {
        Ok(text) => rt.eprintln(text),
        Err(_) => rt.eprintln(line.escape_ascii()),
    };
}
