// A book's words in decimal digits: a row to a line, and each other section on a line.
#![tactic(auto)]

ghost use Rattle.std.specs.Prelude.{◌≡◌, ◌∷◌, ◌++◌, ◌/◌, ◌<◌, length};
ghost use Rattle.numbers.specs.Limits.{ROW_WORDS};
ghost use Rattle.numbers.specs.Refusals.{ACCEPTED};
ghost use Rattle.text.specs.Words.{space};
ghost use Rattle.text.specs.Decimals.{decimal};
ghost use Rattle.book.specs.Judging.{loaded};
ghost use Rattle.buffer_writer.specs.Finish.{Wrote};
ghost use Rattle.book_writer.specs.Layout.{book_word, word_line, row_line, row_lines, section_line, book_said};

use book::check::{
    arg_in, assumes_part, guarantees_part, kind_in, lower_in, operands_part, place_accepted,
    rows_part, upper_in,
};
use buffer_writer::{put_bytes, put_number};
use numbers::ROW_WORDS;

// `book ` and a number, at the start.
pub fn put_book_number(out: &mut [u8], number: u64) -> usize
    ensures { Wrote out.old 0 (book_word ++ decimal number) out.new result }
{
    let next = put_bytes(out, 0, b"book ");
    put_number(out, next, number)
}

// A word after others.
fn put_word(out: &mut [u8], at: usize, word: u64) -> usize
    ensures { Wrote out.old at (space ∷ decimal word) out.new result }
{
    let next = put_bytes(out, at, b" ");
    put_number(out, next, word)
}

// A row's line.
fn put_row(out: &mut [u8], at: usize, rows: &[u64], row: usize) -> usize
    requires { row < length rows.now / ROW_WORDS }
    ensures { Wrote out.old at (row_line rows.now row) out.new result }
{
    let a = put_number(out, at, kind_in(rows, row));
    let b = put_word(out, a, arg_in(rows, row));
    let c = put_word(out, b, lower_in(rows, row));
    let d = put_word(out, c, upper_in(rows, row));
    put_bytes(out, d, b"\n")
}

// The lines of the rows.
fn put_rows(out: &mut [u8], at: usize, rows: &[u64]) -> usize
    ensures { Wrote out.old at (row_lines rows.now (length rows.now / ROW_WORDS)) out.new result }
{
    let mut end = at;
    for row in 0..rows.len() / ROW_WORDS {
        end = put_row(out, end, rows, row);
    }
    end
}

// Words, each after a space.
fn put_words(out: &mut [u8], at: usize, words: &[u64]) -> usize
    ensures { Wrote out.old at (word_line words.now (length words.now)) out.new result }
{
    let mut end = at;
    for word in words {
        end = put_word(out, end, *word);
    }
    end
}

// A section on its line, its count first.
fn put_section(out: &mut [u8], at: usize, words: &[u64]) -> usize
    ensures { Wrote out.old at (section_line words.now) out.new result }
{
    let a = put_number(out, at, words.len() as u64);
    let b = put_words(out, a, words);
    put_bytes(out, b, b"\n")
}

// An accepted book.
pub fn put_book(out: &mut [u8], at: usize, words: &[u64]) -> usize
    requires { (loaded words.now).number ≡ ACCEPTED }
    ensures { Wrote out.old at (book_said words.now) out.new result }
{
    let places = place_accepted(words);
    let rows = rows_part(words, places);
    let a = put_number(out, at, (rows.len() / ROW_WORDS) as u64);
    let b = put_bytes(out, a, b"\n");
    let c = put_rows(out, b, rows);
    let d = put_section(out, c, operands_part(words, places));
    let e = put_section(out, d, assumes_part(words, places));
    put_section(out, e, guarantees_part(words, places))
}
