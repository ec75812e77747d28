// A property of a book, written as its rows are walked: the parts of a row have lower numbers than it, so the walk ends.
ghost use Rattle.std.specs.Prelude.{◌∷◌, ◌/◌, ◌<◌, length, eqb};
ghost use Rattle.numbers.specs.Limits.{ROW_WORDS};
ghost use Rattle.buffer_writer.specs.Finish.{Wrote};
ghost use Rattle.book.specs.Kinds.{kind_of_word};
ghost use Rattle.book.specs.Judging.{kind_in, arg_in, lower_in, upper_in};
ghost use Rattle.trees.specs.Forest.{head_of};
ghost use Rattle.trees.specs.Books.{tree_at};
ghost use Rattle.trees.specs.Walking.{Walk, rows_said};
ghost use Rattle.rule_scanner.specs.Writing.{head_said};
ghost use Rattle.rule_scanner.specs.declared.symbols.Symbol.TheVariants.{Name};
ghost use Rattle.rule_printer.specs.Printing.{spelled, lines};
ghost use Rattle.rule_printer.specs.Walking.{comma_unless, rest_said};

use crate::put::{put_head, put_shut};
use book::check::{arg_in, kind_in, lower_in, upper_in};
use book::kind::Kind;
use buffer_writer::put_bytes;
use trees::walk::{count_at, operand_at};

// What a row's property begins with, up to its parts.
fn put_begin(out: &mut [u8], at: usize, rows: &[u64], row: usize) -> usize
    requires { row < length rows.now / ROW_WORDS }
    ensures { Wrote out.old at (spelled (Name (kind_of_word (kind_in rows.now row)) ∷ head_said (head_of (kind_of_word (kind_in rows.now row)) (arg_in rows.now row) (lower_in rows.now row) (upper_in rows.now row)))) out.new result }
{
    put_head(
        out,
        at,
        Kind::of_word(kind_in(rows, row)),
        arg_in(rows, row),
        lower_in(rows, row),
        upper_in(rows, row),
    )
}

// A comma, but before the first part.
fn put_comma(out: &mut [u8], at: usize, left: usize, count: usize) -> usize
    ensures { Wrote out.old at (spelled (comma_unless (eqb left count))) out.new result }
{
    if left == count {
        return at;
    }
    put_bytes(out, at, b",")
}

// The last parts of a row, `left` of them, and what closes it.
fn put_rest<'a>(
    out: &mut [u8],
    at: usize,
    rows: &'a [u64],
    operands: &'a [u64],
    row: usize,
    left: usize,
) -> usize
    requires { Walk rows.now operands.now row left }
    ensures { Wrote out.old at (spelled (rest_said (rows_said rows.now operands.now) row left)) out.new result }
{
    if left == 0 {
        return put_shut(out, at, Kind::of_word(kind_in(rows, row)));
    }
    let part = operand_at(rows, operands, row, left);
    let begin = put_comma(out, at, left, count_at(rows, row));
    let inner = put_begin(out, begin, rows, part);
    let next = put_rest(out, inner, rows, operands, part, count_at(rows, part));
    put_rest(out, next, rows, operands, row, left - 1)
}

// A row's property on its line.
pub fn put_line<'a>(
    out: &mut [u8],
    at: usize,
    rows: &'a [u64],
    operands: &'a [u64],
    row: usize,
) -> usize
    requires { Walk rows.now operands.now row 0 }
    ensures { Wrote out.old at (lines (tree_at (rows_said rows.now operands.now) row)) out.new result }
{
    let inner = put_begin(out, at, rows, row);
    let end = put_rest(out, inner, rows, operands, row, count_at(rows, row));
    put_bytes(out, end, b"\n")
}
