// What a kit desk writes.
ghost use Rattle.std.specs.Prelude.{◌≡◌};
ghost use Rattle.memory.specs.Memory.{book_of, state_of};
ghost use Rattle.memory.specs.Kept.{Kept};
ghost use Rattle.property_answers.specs.Verdict.{verdict_of};
ghost use Rattle.buffer_writer.specs.Buffer.{handed, in_buffer};
ghost use Rattle.buffer_writer.specs.Finish.{Wrote};
ghost use Rattle.desk.specs.Standing.{kit_count};
ghost use Rattle.desk_lines.specs.Does.{event_of};
ghost use Rattle.desk_lines.specs.Bytes.{numbered, kit_word, kit_words, scan_bytes, event_bytes, last_bytes};

use crate::{Event, Stage};
use buffer_writer::{put_bytes, put_number};
use desk::TABLE_SIZE;
use numbers::{ACCEPTED, MOST_KITS, Refusal};
use oracle::SIZE;

// The most digits of a line's number.
const NUMBER_DIGITS: usize = 20;

// A kit's word, with the space before it.
const KIT_BYTES: usize = 4;

// An accepted scan's line: its number, a space, 0, the words, a line feed. A refused one's is shorter.
const SCAN_BYTES: usize = NUMBER_DIGITS + 1 + 1 + KIT_BYTES * MOST_KITS + 1;

// A slip's line.
const SLIP_BYTES: usize = 8;

// No answer has more bytes.
pub const LONGEST_ANSWER: usize = SCAN_BYTES + SLIP_BYTES;

// A word, a number and a line feed.
fn put_numbered(out: &mut [u8], at: usize, word: &[u8], number: u64) -> usize
    ensures { Wrote out.old at (numbered word.now number) out.new result }
{
    let a = put_bytes(out, at, word);
    let b = put_number(out, a, number);
    put_bytes(out, b, b"\n")
}

// The answers of a kit.
fn put_kit(out: &mut [u8], at: usize, monitor: &[u64; SIZE], kit: usize) -> usize
    requires { Kept monitor.now }
    ensures { Wrote out.old at (kit_word (verdict_of monitor.now kit)) out.new result }
{
    let v = desk::of_kit(monitor, kit);
    let word = [
        b' ',
        b'0' + u8::from(v.value),
        b'0' + v.early.digit(),
        b'0' + v.settled.digit(),
    ];
    put_bytes(out, at, &word)
}

// The answers of every kit.
fn put_kits(out: &mut [u8], at: usize, table: &[u64; TABLE_SIZE], monitor: &[u64; SIZE]) -> usize
    requires { Kept monitor.now }
    ensures { Wrote out.old at (kit_words (book_of monitor.now) (state_of monitor.now) (kit_count table.now)) out.new result }
{
    let mut p = at;
    for kit in 0..desk::kit_count(table) {
        p = put_kit(out, p, monitor, kit);
    }
    p
}

// The line of a scan, from the start of `out`.
fn put_scan(
    out: &mut [u8],
    i: u64,
    number: u64,
    table: &[u64; TABLE_SIZE],
    monitor: &[u64; SIZE],
) -> usize
    requires { Kept monitor.now }
    ensures { Wrote out.old 0 (scan_bytes i number (kit_words (book_of monitor.now) (state_of monitor.now) (kit_count table.now))) out.new result }
{
    let a = put_number(out, 0, i);
    let b = put_bytes(out, a, b" ");
    let c = put_number(out, b, number);
    if number == ACCEPTED {
        let d = put_kits(out, c, table, monitor);
        put_bytes(out, d, b"\n")
    } else {
        put_bytes(out, c, b"\n")
    }
}

// What is said after a line, up to a place.
fn put_event(
    event: Event,
    table: &[u64; TABLE_SIZE],
    monitor: &[u64; SIZE],
    out: &mut [u8],
) -> usize
    requires { Kept monitor.now }
    ensures { Wrote out.old 0 (event_bytes (event_of event) (kit_words (book_of monitor.now) (state_of monitor.now) (kit_count table.now))) out.new result }
{
    match event {
        Event::Nothing => 0,
        Event::Desk(number) => put_numbered(out, 0, b"desk ", number),
        Event::Scan(i, number, slip) => {
            let a = put_scan(out, i, number, table, monitor);
            match slip {
                Some(kit) => put_numbered(out, a, b"slip ", kit as u64),
                None => a,
            }
        }
    }
}

// What is said after a line: its length, and its bytes from the start of `out`.
pub fn event(event: Event, table: &[u64; TABLE_SIZE], monitor: &[u64; SIZE], out: &mut [u8]) -> u64
    requires { Kept monitor.now }
    ensures { handed result out.new ≡ in_buffer out.old (event_bytes (event_of event) (kit_words (book_of monitor.now) (state_of monitor.now) (kit_count table.now))) }
{
    let end = put_event(event, table, monitor, out);
    buffer_writer::finished(out, end)
}

// What is said at the end of the input, up to a place.
fn put_last(stage: Stage, out: &mut [u8]) -> usize
    ensures { Wrote out.old 0 (last_bytes stage) out.new result }
{
    match stage {
        Stage::Awaited | Stage::Giving(_, _) => {
            put_numbered(out, 0, b"desk ", Refusal::WrongLength.number())
        }
        Stage::Opened(_) => put_bytes(out, 0, b"end\n"),
        Stage::Closed => 0,
    }
}

// What is said at the end of the input: its length, and its bytes from the start of `out`.
pub fn last(stage: Stage, out: &mut [u8]) -> u64
    ensures { handed result out.new ≡ in_buffer out.old (last_bytes stage) }
{
    let end = put_last(stage, out);
    buffer_writer::finished(out, end)
}
