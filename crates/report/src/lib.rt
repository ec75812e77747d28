// Text in, report out.
#![tactic(auto)]

mod lines;
mod sums;
mod text_calls;

ghost use Rattle.std.specs.Prelude.{◌≡◌};
ghost use Rattle.numbers.specs.Refusals.{number_of};
ghost use Rattle.text.specs.Words.{supply_from};
ghost use Rattle.memory.specs.Memory.{book_of, state_of, ledger_of};
ghost use Rattle.ledger.specs.Ledger.{blank_ledger};
ghost use Rattle.pmtl.specs.Monitor.{initial_in};
ghost use Rattle.book.specs.Judging.{loaded};
ghost use Rattle.memory.specs.Kept.{Kept};
ghost use Rattle.buffer_writer.specs.Buffer.{handed, in_buffer};
ghost use Rattle.buffer_writer.specs.Finish.{finish};
ghost use Rattle.report.specs.Lines.{calls_from, lines_from, call_lines, book_then};
ghost use Rattle.report.specs.Report.{book_line, written, report};

use book::loading::Loading;
use book::strict::{Excess, first_excess};
use memory::SIZE;
use numbers::{ACCEPTED, LONGEST_INPUT, MOST_ATOMS, Refusal, refused_with};
use text::MOST_DIGITS;

// A line for each call, and what stands after them.
fn call_lines(
    input: &[u8],
    from: usize,
    count: u64,
    monitor: &mut [u64; SIZE],
    out: &mut [u8],
    start: usize,
) -> u64
    requires { Kept monitor.old }
    ensures { handed result out.new ≡ finish out.old start (written (lines_from (book_of monitor.old) 0 (state_of monitor.old) (ledger_of monitor.old) (calls_from (supply_from input.now from).ending count (supply_from input.now from).words))) }
{
    let mut bytes = [0u8; MOST_ATOMS];
    let mut digits = [b'0'; MOST_DIGITS];
    let mut first = MOST_DIGITS - 1;
    let mut at = start;
    let mut cursor = from;
    for done in 0..count {
        let turn = match text_calls::call(input, cursor, &mut bytes, monitor) {
            Ok(turn) => turn,
            Err(refusal) => return lines::stopped(out, at, refusal.number()),
        };
        first = text::count_up(done, &mut digits, first);
        at = lines::put_call(out, at, &digits, first, refused_with(turn.outcome), monitor);
        cursor = turn.next;
    }
    lines::last(input, cursor, monitor, out, at)
}

// The calls, after their count, on a fresh monitor.
fn counted_calls(
    input: &[u8],
    cursor: usize,
    monitor: &mut [u64; SIZE],
    out: &mut [u8],
    at: usize,
) -> u64
    requires { Kept monitor.old × (state_of monitor.old ≡ initial_in (state_of monitor.old).way (book_of monitor.old).rows) × (ledger_of monitor.old ≡ blank_ledger (book_of monitor.old)) }
    ensures { handed result out.new ≡ finish out.old at (written (call_lines (state_of monitor.old).way (book_of monitor.old) (supply_from input.now cursor).ending (supply_from input.now cursor).words)) }
{
    match text::next_word(input, cursor) {
        Ok(count) => call_lines(input, count.next, count.number, monitor, out, at),
        Err(refusal) => lines::stopped(out, at, refusal.number()),
    }
}

// A refused book's line, which nothing follows.
fn refused_book(out: &mut [u8], refusal: Refusal, excess: Option<Excess>) -> u64
    ensures { handed result out.new ≡ finish out.old 0 (book_line (number_of refusal) excess) }
{
    let at = lines::put_book(out, 0, refusal.number(), excess);
    buffer_writer::finished(out, at)
}

// The report from a book's words on, the text after them at `cursor`.
fn loaded_book(way: Loading, input: &[u8], cursor: usize, words: &[u64], out: &mut [u8]) -> u64
    ensures { handed result out.new ≡ finish out.old 0 (written (book_then way (loaded words.now) (supply_from input.now cursor).ending (supply_from input.now cursor).words)) }
{
    let mut monitor = [0u64; SIZE];
    match loader::load_in_zeros(way, words, &mut monitor) {
        Ok(()) => {
            let at = lines::put_book(out, 0, ACCEPTED, None);
            counted_calls(input, cursor, &mut monitor, out, at)
        }
        Err(refusal) => refused_book(out, refusal, first_excess(way, words)),
    }
}

// The report of `input`, its book loaded in this way, in `out`: its length, with what stands after it unchanged; or MAX, with
// zeros throughout, where it does not fit.
pub fn report_by(way: Loading, input: &[u8], out: &mut [u8]) -> u64
    ensures { handed result out.new ≡ in_buffer out.old (report way input.now) }
{
    if LONGEST_INPUT < input.len() {
        return lines::stopped(out, 0, Refusal::PastLimit.number());
    }
    let mut words = [0u64; text_reader::BOOK_WORDS];
    match text_reader::book(input, &mut words) {
        Ok(book) => loaded_book(way, input, book.next, &words[..book.end], out),
        Err(refusal) => refused_book(out, refusal, None),
    }
}

// The report, its book loaded as any that is in order. The crate report_c hands these four to C, under the same names.
pub fn binefdar_report(input: &[u8], out: &mut [u8]) -> u64
    ensures { handed result out.new ≡ in_buffer out.old (report Loading.Ordinary input.now) }
{
    report_by(Loading::Ordinary, input, out)
}

// The book loaded strictly.
pub fn binefdar_report_strict(input: &[u8], out: &mut [u8]) -> u64
    ensures { handed result out.new ≡ in_buffer out.old (report Loading.Strict input.now) }
{
    report_by(Loading::Strict, input, out)
}

// The book loaded for the lasting way, in which a state lasts until the next call.
pub fn binefdar_report_lasting(input: &[u8], out: &mut [u8]) -> u64
    ensures { handed result out.new ≡ in_buffer out.old (report Loading.Lasting input.now) }
{
    report_by(Loading::Lasting, input, out)
}

// For that way, and strictly.
pub fn binefdar_report_lasting_strict(input: &[u8], out: &mut [u8]) -> u64
    ensures { handed result out.new ≡ in_buffer out.old (report Loading.LastingStrict input.now) }
{
    report_by(Loading::LastingStrict, input, out)
}
