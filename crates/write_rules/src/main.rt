// Reads a book in words from standard input and prints it as text, or what it is refused with.
#![tactic(auto)]

ghost use Rattle.std.specs.Prelude.{◌≡◌};
ghost use Rattle.numbers.specs.Refusals.{number_of};
ghost use Rattle.book.specs.Judging.{loaded};
ghost use Rattle.buffer_writer.specs.Buffer.{handed, in_buffer};
ghost use Rattle.write_rules.specs.Answers.{refused_line, loaded_said, answer_to};
ghost use Rattle.write_rules.specs.Private.{AloneIn};

use book::check::check;
use buffer_writer::{finished, put_bytes};
use numbers::{LONGEST_INPUT, Refusal};
use rule_printer::print::print_book;
use text_reader::{BOOK_WORDS, left_over};

// A byte more than the longest input that is read, so that a longer one is seen to be longer.
const ROOM: usize = LONGEST_INPUT + 1;

// No text is longer: a book has at most 128 rows, and a row is written in at most 50 bytes.
const LONGEST_TEXT: usize = 8192;

// The line of a refusal.
fn refused(out: &mut [u8], refusal: Refusal) -> u64
    ensures { handed result out.new ≡ in_buffer out.old (refused_line (number_of refusal)) }
{
    let end = book_writer::put_book_number(out, refusal.number());
    let next = put_bytes(out, end, b"\n");
    finished(out, next)
}

// The text of a book handed over as words, or its refusal.
fn print_words(words: &[u64], out: &mut [u8]) -> u64
    ensures { handed result out.new ≡ in_buffer out.old (loaded_said (loaded words.now)) }
{
    match check(words) {
        Ok(()) => print_book(words, out),
        Err(refusal) => refused(out, refusal),
    }
}

// The book that an input says, with nothing after it: how many words it has.
fn read_words(input: &[u8], words: &mut [u64; BOOK_WORDS]) -> Result<usize, Refusal>
    ensures { AloneIn input.now words.new result }
{
    let read = text_reader::book(input, words)?;
    left_over(input, read.next)?;
    Ok(read.end)
}

// The answer to an input: its length, or zeros and MAX where it does not fit.
fn answer(input: &[u8], out: &mut [u8]) -> u64
    ensures { handed result out.new ≡ in_buffer out.old (answer_to input.now) }
{
    if LONGEST_INPUT < input.len() {
        return refused(out, Refusal::PastLimit);
    }
    let mut words = [0u64; BOOK_WORDS];
    match read_words(input, &mut words) {
        Ok(end) => print_words(&words[..end], out),
        Err(refusal) => refused(out, refusal),
    }
}

fn show(rt: &(impl Print + Eprint), input: &[u8], out: &mut [u8]) {
    let length = answer(input, out) as usize;
    if out.len() < length {
        console::complain(rt, b"No room holds the answer.");
        return;
    }
    console::print(rt, &out[..length]);
}

fn main(rt: HostRuntime) {
    let mut input = [0u8; ROOM];
    let Some(n) = console::read_all(&rt, &mut input) else {
        return;
    };
    let mut out = [0u8; LONGEST_TEXT];
    show(&rt, &input[..n], &mut out);
}
