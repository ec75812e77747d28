// A text is read as the words of a book. It is read twice: once to see whether it is written as it should be and how many
// rows it has, and where these are few enough, once more to build them.
ghost use Rattle.std.specs.Prelude.{◌≡◌, ◌≤◌, length};
ghost use Rattle.numbers.specs.Limits.{LONGEST_INPUT};
ghost use Rattle.trees.specs.Putting.{MOST_WORDS};
ghost use Rattle.numbers.specs.Refusals.{refused_with};
ghost use Rattle.rule_reader.specs.Words.{number_read, place_read, length_of, Right, ReadAs};

use crate::make::make;
use book::check::{Places, check};
use numbers::{LONGEST_INPUT, MOST_ROWS, ROW_WORDS, Refusal};
use rule_scanner::scan::{Extent, scan_text};
use trees::book_words::put_sections;

// What a text is refused with, and the place of what is wrong in its form, 0 where it is not its form.
#[derive(Clone, Copy, Debug, PartialEq, Eq)]
pub struct Wrong {
    pub refusal: Refusal,
    pub place: usize,
}

// The book of a text that is written as it should be.
fn build(
    input: &[u8],
    forms: &mut [u8],
    extent: Extent,
    words: &mut [u64],
) -> Result<usize, Refusal>
    requires { Right input.now extent (length forms.old) (length words.old) }
    ensures { ReadAs input.now (refused_with result) 0 (length_of result) words.new }
{
    if MOST_ROWS < extent.rows {
        return Err(Refusal::PastLimit);
    }
    let mut frames = [0; ROW_WORDS * MOST_ROWS];
    let mut made = [0; ROW_WORDS * MOST_ROWS];
    let mut operands = [0; MOST_ROWS];
    let mut tops = [0; MOST_ROWS];
    let taken = make(
        input,
        forms,
        &mut frames,
        &mut made,
        &mut operands,
        &mut tops,
    );
    let counts = Places {
        rows: extent.rows,
        operands: taken,
        assumes: extent.assumes,
        guarantees: extent.guarantees,
    };
    let end = put_sections(words, counts, &made, &operands, &tops);
    check(lists::part_of(words, 0, end))?;
    Ok(end)
}

// Reads a text as a book, whose words are then the first of `words`, and answers with how many they are.
pub fn read_book(input: &[u8], words: &mut [u64]) -> Result<usize, Wrong>
    requires { (length input.now ≤ LONGEST_INPUT) × (MOST_WORDS ≤ length words.old) }
    ensures { ReadAs input.now (number_read result) (place_read result) (length_of result) words.new }
{
    let mut forms = [0; LONGEST_INPUT];
    match scan_text(input, &mut forms) {
        Ok(extent) => build(input, &mut forms, extent, words).map_err(|refusal| Wrong {
            refusal,
            place: 0,
        }),
        Err(place) => Err(Wrong {
            refusal: Refusal::BadWord,
            place,
        }),
    }
}
