// The operands of a row, in the words of an accepted book.
ghost use Rattle.std.specs.Prelude.{◌≡◌, ◌+◌, ◌-◌, ◌<◌, get_or};
ghost use Rattle.book.specs.Rows.{count_of};
ghost use Rattle.book.specs.Judging.{kind_in, arg_in, start_in};
ghost use Rattle.trees.specs.Walking.{HeldRow, Walk};

use book::check::{arg_in, kind_in, taken_by};

// How many operands a row takes.
pub fn count_at(rows: &[u64], row: usize) -> usize
    requires { HeldRow rows.now row }
    ensures { result ≡ count_of (kind_in rows.now row) (arg_in rows.now row) }
{
    taken_by(kind_in(rows, row), arg_in(rows, row))
}

// Where a row's operands begin: after those of the rows before it.
fn start_at(rows: &[u64], row: usize) -> usize
    requires { HeldRow rows.now row }
    ensures { result ≡ start_in rows.now row }
{
    let mut start = 0;
    for i in 0..row {
        start += count_at(rows, i);
    }
    start
}

// The operand of a row that stands before its last `left - 1`.
pub fn operand_at<'a>(rows: &'a [u64], operands: &'a [u64], row: usize, left: usize) -> usize
    requires { Walk rows.now operands.now row left × (0 < left) }
    ensures { result ≡ get_or operands.now (start_in rows.now row + (count_of (kind_in rows.now row) (arg_in rows.now row) - left)) 0 }
{
    let place = start_at(rows, row) + (count_at(rows, row) - left);
    operands[place] as usize
}
