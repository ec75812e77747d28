// The kit desk, live: lines of decimal words on standard input, and each is answered on standard output before the next is awaited.
#![tactic(auto)]

ghost use Rattle.std.specs.Prelude.{◌≤◌, length as list_length};
ghost use Rattle.desk_lines.specs.Does.{Good};
ghost use Rattle.kit_desk.specs.Keeps.{Keeps};

use desk::TABLE_SIZE;
use desk::given::MOST_KIT_WORDS;
use desk_lines::{LONGEST_ANSWER, Stage};
use line_words::LONGEST_LINE;
use oracle::SIZE;
use std::io::Read;

// A byte more than the longest line that is read, so that a longer one is seen to be longer.
const ROOM: usize = LONGEST_LINE + 1;

const LINE_FEED: u8 = b'\n';

// A line that was read: how many of its bytes were kept, and whether the input ended after it.
#[derive(Clone, Copy)]
struct Line {
    held: usize,
    ended: bool,
}

// Keeps a byte of a line after those that were kept, so many of them, if there is room for it.
fn keep(line: &mut [u8], held: usize, byte: u8) -> usize
    requires { held ≤ list_length line.old }
    ensures { Keeps line.old held byte line.new result }
{
    if held < line.len() {
        line[held] = byte;
        held + 1
    } else {
        held
    }
}

// Reads a line to its end, byte by byte, so that nothing is awaited that the line does not need. A proved loop has to end: it has more
// turns than a run uses up.
fn read_line(rt: &impl Eprint, from: &mut impl Read, line: &mut [u8]) -> Line
    ensures { result.held ≤ list_length line.old }
{
    let mut one = [0u8; 1];
    let mut held = 0;
    for _ in 0..u64::MAX {
        if let None | Some(0) = console::read_some(rt, from, &mut one) {
            break;
        }
        if one[0] == LINE_FEED {
            return Line { held, ended: false };
        }
        held = keep(line, held, one[0]);
    }
    Line { held, ended: true }
}

// Prints an answer of so many bytes: there is always room for it.
fn print_answer(rt: &(impl Print + Eprint), out: &[u8], length: u64)
    requires { length ≤ list_length out.now }
{
    console::print(rt, &out[..length as usize]);
}

// Answers a line, and prints the answer.
fn answer_line(
    rt: &(impl Print + Eprint),
    stage: Stage,
    line: &[u8],
    kits: &mut [u64; MOST_KIT_WORDS],
    table: &mut [u64; TABLE_SIZE],
    monitor: &mut [u64; SIZE],
) -> Stage
    requires { Good stage table.old monitor.old }
    ensures { Good result table.new monitor.new }
{
    let mut out = [0u8; LONGEST_ANSWER];
    let answered = desk_lines::answer(stage, line, kits, table, monitor, &mut out);
    print_answer(rt, &out, answered.length);
    answered.stage
}

// Prints what is said at the end of the input.
fn say_last(rt: &(impl Print + Eprint), stage: Stage) {
    let mut said = [0u8; LONGEST_ANSWER];
    let length = desk_lines::last(stage, &mut said);
    print_answer(rt, &said, length);
}

fn main(rt: HostRuntime) {
    let mut from = rt.reader();
    let mut line = [0u8; ROOM];
    let mut kits = [0u64; MOST_KIT_WORDS];
    let mut table = [0u64; TABLE_SIZE];
    let mut monitor = [0u64; SIZE];
    let mut stage = desk_lines::start(&kits, &mut table, &mut monitor);
    for _ in 0..u64::MAX {
        let read = read_line(&rt, &mut from, &mut line);
        stage = answer_line(
            &rt,
            stage,
            &line[..read.held],
            &mut kits,
            &mut table,
            &mut monitor,
        );
        if read.ended {
            say_last(&rt, stage);
            return;
        }
    }
}
