// Reads a book in words and steps from standard input and prints the tidied book, or what is refused.
#![tactic(auto)]

ghost use Rattle.std.specs.Prelude.{◌≡◌, ◌≤◌, length};
ghost use Rattle.numbers.specs.Limits.{LONGEST_INPUT};
ghost use Rattle.numbers.specs.Refusals.{ACCEPTED, number_of};
ghost use Rattle.book.specs.Judging.{loaded};
ghost use Rattle.buffer_writer.specs.Buffer.{handed, in_buffer};
ghost use Rattle.buffer_writer.specs.Finish.{Wrote};
ghost use Rattle.tidying.specs.Tidied.{tidied, steps_of};
ghost use Rattle.tidied.specs.Answers.{number_line, refusal_line, tidy_said, words_said, answer_to};
ghost use Rattle.tidied.specs.Private.{STEPS_ROOM, StepsRead, LastSteps, AcceptedRead, steps_after};

use book::check::check;
use buffer_writer::{finished, put_bytes, put_number};
use numbers::{LONGEST_INPUT, Refusal};
use text_reader::{BOOK_WORDS, Part, left_over, words_into};
use tidier::tidy::{StepRefused, tidy};
use trees::book_words::MOST_WORDS;

// A byte more than the longest input that is read, so that a longer one is seen to be longer.
const ROOM: usize = LONGEST_INPUT + 1;

// A step takes two words, its form and its row. No input holds the words of so many steps: each word takes a byte, and a
// byte parts it from the next.
const STEP_WORDS: usize = 2;

const STEPS: u64 = 16385;

const STEPS_ROOM: usize = STEP_WORDS * STEPS as usize;

// No answer is longer: an accepted book has at most 644 words, none of more than 20 digits, each before one byte.
const LONGEST_ANSWER: usize = 16384;

// A word and a number on a line.
fn put_numbered(out: &mut [u8], word: &[u8], number: u64) -> usize
    ensures { Wrote out.old 0 (number_line word.now number) out.new result }
{
    let next = put_bytes(out, 0, word);
    let end = put_number(out, next, number);
    put_bytes(out, end, b"\n")
}

// The line of a step that was refused.
fn put_refusal(out: &mut [u8], refused: StepRefused) -> usize
    ensures { Wrote out.old 0 (refusal_line (number_of refused.refusal) refused.step) out.new result }
{
    let next = put_bytes(out, 0, b"tidy ");
    let middle = put_number(out, next, refused.refusal.number());
    let last = put_bytes(out, middle, b" ");
    let end = put_number(out, last, refused.step as u64);
    put_bytes(out, end, b"\n")
}

// The tidied book, or the refusal of a step.
fn put_tidied<'a>(book: &'a [u64], steps: &'a [u64], out: &mut [u8]) -> usize
    requires { (loaded book.now).number ≡ ACCEPTED }
    ensures { Wrote out.old 0 (tidy_said (tidied book.now (steps_of steps.now))) out.new result }
{
    let mut words = [0u64; MOST_WORDS];
    match tidy(book, steps, &mut words) {
        Ok(length) => {
            let head = put_numbered(out, b"tidy ", 0);
            book_writer::put_book(out, head, &words[..length])
        }
        Err(refused) => put_refusal(out, refused),
    }
}

// The steps of a text, which begin at a place with how many there are, into `steps`.
fn read_steps(input: &[u8], cursor: usize, steps: &mut [u64]) -> Result<Part, Refusal>
    requires { (length input.now ≤ LONGEST_INPUT) × (STEPS_ROOM ≤ length steps.old) }
    ensures { StepsRead input.now cursor steps.new result }
{
    let count = text::next_word(input, cursor)?;
    if STEPS < count.number {
        return words_into(input, count.next, STEPS_ROOM, steps, 0);
    }
    let words = STEP_WORDS * count.number as usize;
    words_into(input, count.next, words, steps, 0)
}

// The same, with nothing after them: how many words they have.
fn last_steps(input: &[u8], cursor: usize, steps: &mut [u64]) -> Result<usize, Refusal>
    requires { (length input.now ≤ LONGEST_INPUT) × (STEPS_ROOM ≤ length steps.old) }
    ensures { LastSteps input.now cursor steps.new result }
{
    let read = read_steps(input, cursor, steps)?;
    left_over(input, read.next)?;
    Ok(read.end)
}

// The answer to the steps of a text that begin at a place, on an accepted book.
fn put_steps<'a>(book: &'a [u64], input: &'a [u8], cursor: usize, out: &mut [u8]) -> usize
    requires { ((loaded book.now).number ≡ ACCEPTED) × (length input.now ≤ LONGEST_INPUT) }
    ensures { Wrote out.old 0 (steps_after book.now input.now cursor) out.new result }
{
    let mut steps = [0u64; STEPS_ROOM];
    match last_steps(input, cursor, &mut steps) {
        Ok(end) => put_tidied(book, &steps[..end], out),
        Err(refusal) => put_numbered(out, b"stop ", refusal.number()),
    }
}

// The accepted book that a text begins with.
fn read_words(input: &[u8], words: &mut [u64; BOOK_WORDS]) -> Result<Part, Refusal>
    ensures { AcceptedRead input.now words.new result }
{
    let read = text_reader::book(input, words)?;
    check(&words[..read.end])?;
    Ok(read)
}

// The answer to an input that is not too long.
fn put_answer(input: &[u8], out: &mut [u8]) -> usize
    requires { length input.now ≤ LONGEST_INPUT }
    ensures { Wrote out.old 0 (words_said input.now) out.new result }
{
    let mut words = [0u64; BOOK_WORDS];
    match read_words(input, &mut words) {
        Ok(read) => put_steps(&words[..read.end], input, read.next, out),
        Err(refusal) => put_numbered(out, b"book ", refusal.number()),
    }
}

// The answer to an input: its length, or zeros and MAX where it does not fit.
fn answer(input: &[u8], out: &mut [u8]) -> u64
    ensures { handed result out.new ≡ in_buffer out.old (answer_to input.now) }
{
    if LONGEST_INPUT < input.len() {
        let end = put_numbered(out, b"book ", Refusal::PastLimit.number());
        return finished(out, end);
    }
    let end = put_answer(input, out);
    finished(out, end)
}

fn show(rt: &(impl Print + Eprint), input: &[u8], out: &mut [u8]) {
    let length = answer(input, out) as usize;
    if out.len() < length {
        console::complain(rt, b"No room holds the answer.");
        return;
    }
    console::print(rt, &out[..length]);
}

fn main(rt: HostRuntime) {
    let mut input = [0u8; ROOM];
    let Some(n) = console::read_all(&rt, &mut input) else {
        return;
    };
    let mut out = [0u8; LONGEST_ANSWER];
    show(&rt, &input[..n], &mut out);
}
