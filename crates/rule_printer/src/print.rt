// An accepted book, printed as text into a lent buffer.
ghost use Rattle.std.specs.Prelude.{◌≡◌};
ghost use Rattle.numbers.specs.Refusals.{ACCEPTED};
ghost use Rattle.book.specs.Judging.{loaded};
ghost use Rattle.buffer_writer.specs.Buffer.{handed, in_buffer};
ghost use Rattle.buffer_writer.specs.Finish.{Wrote};
ghost use Rattle.trees.specs.Books.{trees_of};
ghost use Rattle.trees.specs.Walking.{rows_said, Properties};
ghost use Rattle.rule_printer.specs.Printing.{lines, section_printed, book_printed};

use crate::walk::put_line;
use book::check::{
    Places, assumes_part, guarantees_part, operands_part, place_accepted, rows_part,
};
use buffer_writer::{finished, put_bytes, put_number};

// Properties, each on its line.
fn put_lines<'a>(
    out: &mut [u8],
    at: usize,
    rows: &'a [u64],
    operands: &'a [u64],
    properties: &'a [u64],
) -> usize
    requires { Properties rows.now operands.now properties.now }
    ensures { Wrote out.old at (lines (trees_of (rows_said rows.now operands.now) properties.now)) out.new result }
{
    let mut end = at;
    for property in properties {
        end = put_line(out, end, rows, operands, *property as usize);
    }
    end
}

// Properties after their count.
fn put_section<'a>(
    out: &mut [u8],
    at: usize,
    rows: &'a [u64],
    operands: &'a [u64],
    properties: &'a [u64],
) -> usize
    requires { Properties rows.now operands.now properties.now }
    ensures { Wrote out.old at (section_printed (trees_of (rows_said rows.now operands.now) properties.now)) out.new result }
{
    let a = put_number(out, at, properties.len() as u64);
    let b = put_bytes(out, a, b"\n");
    put_lines(out, b, rows, operands, properties)
}

// The properties of an accepted book: the text's length, or zeros and MAX where it does not fit.
pub fn print_book(words: &[u64], out: &mut [u8]) -> u64
    requires { (loaded words.now).number ≡ ACCEPTED }
    ensures { handed result out.new ≡ in_buffer out.old (book_printed (loaded words.now).book) }
{
    let places = place_accepted(words);
    let rows = rows_part(words, places);
    let operands = operands_part(words, places);
    let middle = put_section(out, 0, rows, operands, assumes_part(words, places));
    let end = put_section(out, middle, rows, operands, guarantees_part(words, places));
    finished(out, end)
}
