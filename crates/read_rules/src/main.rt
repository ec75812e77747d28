// Reads rules as text from standard input and prints their book in words, or what they are refused with.
#![tactic(auto)]

ghost use Rattle.std.specs.Prelude.{◌≡◌, ◌≤◌, length};
ghost use Rattle.numbers.specs.Limits.{LONGEST_INPUT};
ghost use Rattle.buffer_writer.specs.Buffer.{handed, in_buffer};
ghost use Rattle.buffer_writer.specs.Finish.{Wrote};
ghost use Rattle.read_rules.specs.Answers.{refused_line, answer_within, answer_to};

use buffer_writer::{finished, put_bytes, put_number};
use numbers::{LONGEST_INPUT, Refusal};
use rule_reader::read::read_book;
use trees::book_words::MOST_WORDS;

// A byte more than the longest text that is read, so that a longer one is seen to be longer.
const ROOM: usize = LONGEST_INPUT + 1;

// No answer is longer: a book has at most 644 words, none of more than 20 digits, each before one byte.
const LONGEST_ANSWER: usize = 16384;

// The line of a number, 0 where nothing is wrong; 13 has its place.
fn put_line(out: &mut [u8], number: u64, place: usize) -> usize
    ensures { Wrote out.old 0 (refused_line number place) out.new result }
{
    let end = book_writer::put_book_number(out, number);
    if number == Refusal::BadWord.number() {
        let next = put_bytes(out, end, b" ");
        let last = put_number(out, next, place as u64);
        return put_bytes(out, last, b"\n");
    }
    put_bytes(out, end, b"\n")
}

// The answer to a text that is not too long, as the bytes up to the place handed back.
fn put_answer(input: &[u8], out: &mut [u8]) -> usize
    requires { length input.now ≤ LONGEST_INPUT }
    ensures { Wrote out.old 0 (answer_within input.now) out.new result }
{
    let mut words = [0; MOST_WORDS];
    match read_book(input, &mut words) {
        Ok(length) => {
            let head = put_line(out, 0, 0);
            book_writer::put_book(out, head, lists::part_of(&words, 0, length))
        }
        Err(wrong) => put_line(out, wrong.refusal.number(), wrong.place),
    }
}

// The answer to a text: its length, or zeros and MAX where it does not fit.
fn answer(input: &[u8], out: &mut [u8]) -> u64
    ensures { handed result out.new ≡ in_buffer out.old (answer_to input.now) }
{
    if LONGEST_INPUT < input.len() {
        let end = put_line(out, Refusal::PastLimit.number(), 0);
        return finished(out, end);
    }
    let end = put_answer(input, out);
    finished(out, end)
}

fn show(rt: &(impl Print + Eprint), input: &[u8], out: &mut [u8]) {
    let length = answer(input, out) as usize;
    if out.len() < length {
        console::complain(rt, b"No room holds the answer.");
        return;
    }
    console::print(rt, &out[..length]);
}

fn main(rt: HostRuntime) {
    let mut input = [0u8; ROOM];
    let Some(n) = console::read_all(&rt, &mut input) else {
        return;
    };
    let mut out = [0u8; LONGEST_ANSWER];
    show(&rt, &input[..n], &mut out);
}
