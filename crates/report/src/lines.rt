// The lines of a report.
ghost use Rattle.std.specs.Prelude.{◌≡◌, ◌∷◌, ◌++◌, ◌+◌, ◌-◌, ◌*◌, ◌≤◌, ◌<◌, length, drop};
ghost use Rattle.std.proofs.lemmas.List.Edits.{sets};
ghost use Rattle.text.specs.Words.{space, digit0, supply_from};
ghost use Rattle.text.specs.Decimals.{decimal};
ghost use Rattle.buffer_writer.specs.Buffer.{handed};
ghost use Rattle.buffer_writer.specs.Finish.{finish, Wrote, Laid};
ghost use Rattle.report.specs.Lines.{Ending, ending_of, end_lines};
ghost use Rattle.report.specs.Report.{ended as report_ended, excess_words, book_line, stop_line, written};
ghost use Rattle.report.specs.Private.{word_at, digit_words, LaidOn, digit_rest, digit_line};
ghost use Rattle.memory.specs.Memory.{ledger_of};
ghost use Rattle.memory.specs.Tables.{property_count};
ghost use Rattle.memory.specs.Kept.{Kept};

use crate::sums::put_summaries;
use book::strict::Excess;
use buffer_writer::put_numbered;
use memory::SIZE;
use numbers::{ACCEPTED, MOST_PROPERTIES, Refusal};
use text::MOST_DIGITS;

// The first number of two digits, and the byte of the digit 0.
const TEN: u64 = 10;

const ZERO: u8 = b'0';

// A property's word, with the space before it.
const WORD_BYTES: usize = 4;

// Where the last four digits of a number begin, and the last three.
const FOUR: usize = MOST_DIGITS - 4;

const THREE: usize = MOST_DIGITS - 3;

// What the line of an accepted call has besides its number, the words and the count: ` 0`, a space and the line feed.
const FIXED_BYTES: usize = 4;

// The longest such line.
const LONGEST_LINE: usize = MOST_DIGITS + WORD_BYTES * MOST_PROPERTIES + MOST_DIGITS + FIXED_BYTES;

// The row that strict loading refuses, and how many runs it can need.
fn put_excess(out: &mut [u8], at: usize, excess: Option<Excess>) -> usize
    ensures { Wrote out.old at (excess_words excess) out.new result }
{
    let Some(over) = excess else {
        return at;
    };
    let a = put_numbered(out, at, b" ", over.row);
    put_numbered(out, a, b" ", over.count)
}

pub fn put_book(out: &mut [u8], at: usize, number: u64, excess: Option<Excess>) -> usize
    ensures { Wrote out.old at (book_line number excess) out.new result }
{
    let a = put_numbered(out, at, b"book ", number);
    let b = put_excess(out, a, excess);
    buffer_writer::put_bytes(out, b, b"\n")
}

fn put_stop(out: &mut [u8], at: usize, number: u64) -> usize
    ensures { Wrote out.old at (stop_line number) out.new result }
{
    let p = put_numbered(out, at, b"stop ", number);
    buffer_writer::put_bytes(out, p, b"\n")
}

// A report that ends with `stop `.
pub fn stopped(out: &mut [u8], at: usize, number: u64) -> u64
    ensures { handed result out.new ≡ finish out.old at (stop_line number) }
{
    let p = put_stop(out, at, number);
    buffer_writer::finished(out, p)
}

// A report that ends with the summaries and `end`.
fn ended(out: &mut [u8], at: usize, monitor: &[u64; SIZE]) -> u64
    requires { Kept monitor.now }
    ensures { handed result out.new ≡ finish out.old at (written (end_lines (ledger_of monitor.now) Ending.end)) }
{
    let a = put_summaries(out, at, monitor);
    let p = buffer_writer::put_bytes(out, a, b"end\n");
    buffer_writer::finished(out, p)
}

// The lines after the calls, by what is left of the text.
pub fn last(input: &[u8], cursor: usize, monitor: &[u64; SIZE], out: &mut [u8], at: usize) -> u64
    requires { Kept monitor.now }
    ensures { handed result out.new ≡ finish out.old at (written (end_lines (ledger_of monitor.now) (ending_of (supply_from input.now cursor).ending (supply_from input.now cursor).words))) }
{
    match text::next_word(input, cursor) {
        Ok(_) => stopped(out, at, Refusal::WrongLength.number()),
        Err(refusal) if refusal == Refusal::BadWord => stopped(out, at, refusal.number()),
        Err(_) => ended(out, at, monitor),
    }
}

// The byte of a digit.
fn glyph(digit: u64) -> u8
    requires { digit ≤ 2 }
    ensures { result ≡ digit0 + digit }
{
    ZERO + digit as u8
}

// A property's word, of the three digits that the tables hold, where there is room for it.
fn lay_word(out: &mut [u8], at: usize, monitor: &[u64; SIZE], i: usize)
    requires kept { Kept monitor.now }
    requires i_bound { (i < property_count monitor.now) × (at + 4 ≤ length out.old) }
    ensures { out.new ≡ sets out.old at (word_at monitor.now i) }
{
    let value = glyph(memory::value_at(monitor, memory::property_row(monitor, i)));
    let early = glyph(memory::early_at(monitor, i));
    let settled = glyph(memory::settled_at(monitor, i));
    let word = [b' ', value, early, settled];
    buffer_writer::copy_to(out, at, &word);
}

// The words of the properties from `first` on, after those before them, where there is room.
fn lay_from(out: &mut [u8], at: usize, monitor: &[u64; SIZE], first: usize, count: usize)
    requires kept { Kept monitor.now }
    requires first_le_count { (first ≤ count) × (count ≡ property_count monitor.now) × (at + 4 * count ≤ length out.old) }
    ensures { LaidOn monitor.now at first count out.old out.new }
{
    for i in first..count {
        lay_word(out, at + WORD_BYTES * i, monitor, i);
    }
}

// The words of all properties. The compiler takes many turns of the loop at once, which takes a start: so the first word is laid
// before it, and a book of one property needs none.
fn lay_words(out: &mut [u8], at: usize, monitor: &[u64; SIZE], count: usize)
    requires kept { Kept monitor.now }
    requires count_value { (count ≡ property_count monitor.now) × (at + 4 * count ≤ length out.old) }
    ensures { out.new ≡ sets out.old at (digit_words monitor.now count) }
{
    if count == 0 {
        return;
    }
    lay_word(out, at, monitor, 0);
    lay_from(out, at, monitor, 1, count);
}

// The words of the properties, by one test of room.
fn put_words(out: &mut [u8], at: usize, monitor: &[u64; SIZE]) -> usize
    requires { Kept monitor.now }
    ensures { Wrote out.old at (digit_words monitor.now (property_count monitor.now)) out.new result }
{
    let count = memory::property_count(monitor);
    let size = WORD_BYTES * count;
    if buffer_writer::has_room(out, at, size) {
        lay_words(out, at, monitor, count);
        return at + size;
    }
    buffer_writer::FULL
}

// What an accepted call's line has after its refusal: the words of the properties, and the count.
fn put_rest(out: &mut [u8], at: usize, monitor: &[u64; SIZE]) -> usize
    requires { Kept monitor.now }
    ensures { Wrote out.old at (digit_rest monitor.now) out.new result }
{
    let a = put_words(out, at, monitor);
    let b = buffer_writer::put_bytes(out, a, b" ");
    buffer_writer::put_number(out, b, memory::fullest(monitor))
}

// A call's number, of the digits from `first` on, and its refusal: most often 0, which is put at once.
fn put_numbers(out: &mut [u8], at: usize, digits: &[u8], first: usize, refusal: u64) -> usize
    requires { first ≤ length digits.now }
    ensures { Wrote out.old at (drop first digits.now ++ space ∷ decimal refusal) out.new result }
{
    let a = buffer_writer::put_bytes(out, at, &digits[first..]);
    if refusal == ACCEPTED {
        return buffer_writer::put_bytes(out, a, b" 0");
    }
    put_numbered(out, a, b" ", refusal)
}

// The last digits, of a number of them that is known beforehand, which takes less than a copy of some length.
fn lay_last<const COUNT: usize>(out: &mut [u8], at: usize, digits: &[u8; MOST_DIGITS]) -> usize
    requires { (length digits.now ≡ 20) × (COUNT ≤ 20) × (at + COUNT ≤ length out.old) }
    ensures { Laid out.old at (drop (20 - COUNT) digits.now) out.new result }
{
    buffer_writer::lay_bytes(out, at, &digits[MOST_DIGITS - COUNT..])
}

// Those from `first` on, however many.
fn lay_some(out: &mut [u8], at: usize, digits: &[u8], first: usize) -> usize
    requires { (first ≤ length digits.now) × (at + length digits.now ≤ length out.old) }
    ensures { Laid out.old at (drop first digits.now) out.new result }
{
    buffer_writer::lay_bytes(out, at, &digits[first..])
}

// The digits from `first` on, where there is room for all. Most calls of a text have a number of three or four.
fn lay_digits(out: &mut [u8], at: usize, digits: &[u8; MOST_DIGITS], first: usize) -> usize
    requires { (first ≤ length digits.now) × (length digits.now ≡ 20) × (at + 20 ≤ length out.old) }
    ensures { Laid out.old at (drop first digits.now) out.new result }
{
    if first == FOUR {
        return lay_last::<4>(out, at, digits);
    }
    if first == THREE {
        return lay_last::<3>(out, at, digits);
    }
    lay_some(out, at, digits, first)
}

// The count and the end of an accepted call's line, where there is room: at once if the count has one digit, as it most often has.
fn lay_end(out: &mut [u8], at: usize, count: u64) -> usize
    requires { at + 22 ≤ length out.old }
    ensures { Wrote out.old at (space ∷ decimal count ++ report_ended) out.new result }
{
    if count < TEN {
        let end = [b' ', ZERO + count as u8, b'\n'];
        return buffer_writer::lay_bytes(out, at, &end);
    }
    let a = buffer_writer::lay_bytes(out, at, b" ");
    let b = buffer_writer::lay_number(out, a, count);
    buffer_writer::lay_bytes(out, b, b"\n")
}

// What it has after its refusal, where there is room for all.
fn lay_rest(out: &mut [u8], at: usize, monitor: &[u64; SIZE]) -> usize
    requires { Kept monitor.now × (at + 150 ≤ length out.old) }
    ensures { Wrote out.old at (digit_rest monitor.now ++ report_ended) out.new result }
{
    let count = memory::property_count(monitor);
    lay_words(out, at, monitor, count);
    lay_end(out, at + WORD_BYTES * count, memory::fullest(monitor))
}

// An accepted call's line, where there is room for the longest: no part is tested for itself.
fn lay_call(
    out: &mut [u8],
    at: usize,
    digits: &[u8; MOST_DIGITS],
    first: usize,
    monitor: &[u64; SIZE],
) -> usize
    requires kept { Kept monitor.now × (first ≤ length digits.now) × (length digits.now ≡ 20) }
    requires at_in_bounds { at + 172 ≤ length out.old }
    ensures { Wrote out.old at (digit_line (drop first digits.now) 0 (digit_rest monitor.now)) out.new result }
{
    let a = lay_digits(out, at, digits, first);
    let b = buffer_writer::lay_bytes(out, a, b" 0");
    lay_rest(out, b, monitor)
}

// A call's line where there may be no room, part by part. Only that of an accepted call has more than the refusal.
fn put_parts(
    out: &mut [u8],
    at: usize,
    digits: &[u8; MOST_DIGITS],
    first: usize,
    refusal: u64,
    monitor: &[u64; SIZE],
) -> usize
    requires { Kept monitor.now × (first ≤ length digits.now) }
    ensures { Wrote out.old at (digit_line (drop first digits.now) refusal (digit_rest monitor.now)) out.new result }
{
    let a = put_numbers(out, at, digits, first, refusal);
    if refusal == ACCEPTED {
        let b = put_rest(out, a, monitor);
        return buffer_writer::put_bytes(out, b, b"\n");
    }
    buffer_writer::put_bytes(out, a, b"\n")
}

// A call's line, its number's digits from `first` on. That of an accepted call is laid by one test of room, but at the very end of a
// buffer.
pub fn put_call(
    out: &mut [u8],
    at: usize,
    digits: &[u8; MOST_DIGITS],
    first: usize,
    refusal: u64,
    monitor: &[u64; SIZE],
) -> usize
    requires { Kept monitor.now × (first ≤ length digits.now) × (length digits.now ≡ 20) }
    ensures { Wrote out.old at (digit_line (drop first digits.now) refusal (digit_rest monitor.now)) out.new result }
{
    if refusal == ACCEPTED {
        if at < text::before_last(out, LONGEST_LINE) {
            return lay_call(out, at, digits, first, monitor);
        }
    }
    put_parts(out, at, digits, first, refusal, monitor)
}
