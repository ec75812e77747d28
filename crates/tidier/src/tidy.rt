// A book is tidied by a list of steps, one after another: the next names rows as they are numbered after the one before.
ghost use Rattle.std.specs.Prelude.{◌≡◌, ◌+◌, ◌*◌, ◌/◌, ◌≤◌, ◌<◌, length};
ghost use Rattle.numbers.specs.Refusals.{ACCEPTED};
ghost use Rattle.book.specs.Judging.{loaded};
ghost use Rattle.trees.specs.Putting.{MOST_WORDS};
ghost use Rattle.tidying.specs.Steps.{fits as steps_fits};
ghost use Rattle.tidying.specs.Tidied.{tidied, steps_of};
ghost use Rattle.tidier.specs.Tidies.{told, stepped, handed_back, lent_words, step_at, Standing, Fitting, Counting, Makes, Steps, TidiedAs};

use crate::fit::fits;
use crate::lay::{Laid, lay_all};
use book::check::{Places, operands_part, place, place_accepted, rows_part};
use numbers::{MOST_ROWS, ROW_WORDS, Refusal};
use tidying::{Form, Step};
use trees::book_words::{MOST_WORDS, put_sections};

// A step takes two words: its form, and the row that it names.
const STEP_WORDS: usize = 2;

// What a list of steps is refused with and at which step, counted from 1, or 0 where it is the book that is refused.
#[derive(Clone, Copy, Debug, PartialEq, Eq)]
pub struct StepRefused {
    pub refusal: Refusal,
    pub step: usize,
}

// Whether a step fits an accepted book.
fn fits_book(book: &[u64], step: Step) -> bool
    requires { (loaded book.now).number ≡ ACCEPTED }
    ensures { result ≡ steps_fits (loaded book.now).book.rows step }
{
    let places = place_accepted(book);
    fits(rows_part(book, places), operands_part(book, places), step)
}

// How many there are of everything in the book after a step.
fn counts_after(book: &[u64], laid: Laid) -> Places
    requires { (loaded book.now).number ≡ ACCEPTED }
    ensures { Counting book.now laid result }
{
    let places = place_accepted(book);
    Places {
        rows: laid.rows,
        operands: laid.operands,
        assumes: places.assumes,
        guarantees: places.guarantees,
    }
}

// The book of the first words after a step that fits, in its place.
fn remake(words: &mut [u64], end: usize, step: Step) -> Result<usize, Refusal>
    requires { Fitting words.old end step }
    ensures { Makes words.old end step (stepped result) words.new }
{
    let mut rows = [0; ROW_WORDS * MOST_ROWS];
    let mut operands = [0; MOST_ROWS];
    let mut tops = [0; MOST_ROWS];
    let laid = lay_all(
        lists::part_of(words, 0, end),
        step,
        &mut rows,
        &mut operands,
        &mut tops,
    );
    if MOST_ROWS < laid.rows {
        return Err(Refusal::PastLimit);
    }
    let counts = counts_after(lists::part_of(words, 0, end), laid);
    Ok(put_sections(words, counts, &rows, &operands, &tops))
}

// The book of the first words after a step, in its place, where the step fits.
fn make(words: &mut [u64], end: usize, step: Step) -> Result<usize, Refusal>
    requires { Standing words.old end }
    ensures { Makes words.old end step (stepped result) words.new }
{
    if fits_book(lists::part_of(words, 0, end), step) {
        return remake(words, end, step);
    }
    Err(Refusal::DoesNotFit)
}

// A step of a list.
fn step_at(steps: &[u64], i: usize) -> Step
    requires { i < length steps.now / 2 }
    ensures { result ≡ step_at steps.now i }
{
    let at = STEP_WORDS * i;
    Step {
        form: Form::of_word(steps[at]),
        row: steps[at + 1] as usize,
    }
}

// All steps on the book of the first words: how many words the new book has.
fn tidy_all(words: &mut [u64], end: usize, steps: &[u64]) -> Result<usize, StepRefused>
    requires { Standing words.old end }
    ensures { Steps words.old end steps.now (told result) words.new }
{
    let mut length = end;
    for i in 0..steps.len() / STEP_WORDS {
        length = match make(words, length, step_at(steps, i)) {
            Ok(made) => made,
            Err(refusal) => {
                return Err(StepRefused {
                    refusal,
                    step: i + 1,
                });
            }
        };
    }
    Ok(length)
}

// Tidies a book in memory that has room for any.
fn tidy_in<'a>(book: &'a [u64], steps: &'a [u64], words: &mut [u64]) -> Result<usize, StepRefused>
    requires { MOST_WORDS ≤ length words.old }
    ensures { TidiedAs (tidied book.now (steps_of steps.now)) (told result) words.new }
{
    match place(book) {
        Ok(_) => {
            lists::copy(book, words, 0);
            tidy_all(words, book.len(), steps)
        }
        Err(refusal) => Err(StepRefused { refusal, step: 0 }),
    }
}

// Tidies a book by steps in words, each its form and its row, and answers with how many words the new book has. The first
// of the lent words are then those of the new book, and zeros stand after them. Words that are no accepted book are refused
// with their number, at step 0. The old book stays as it is.
pub fn tidy<'a>(
    book: &'a [u64],
    steps: &'a [u64],
    out: &mut [u64; MOST_WORDS],
) -> Result<usize, StepRefused>
    ensures { (told result ≡ handed_back (tidied book.now (steps_of steps.now))) × (out.new ≡ lent_words (tidied book.now (steps_of steps.now))) }
{
    lists::clear(out);
    let mut words = [0; MOST_WORDS];
    let length = tidy_in(book, steps, &mut words)?;
    lists::copy(lists::part_of(&words, 0, length), out, 0);
    Ok(length)
}
