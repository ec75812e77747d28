// Whether a step fits, and what is laid in the place of a row that it drops.
ghost use Rattle.std.specs.Prelude.{◌≡◌, true, ◌/◌, ◌<◌, length, eqb};
ghost use Rattle.numbers.specs.Limits.{ROW_WORDS};
ghost use Rattle.book.specs.Judging.{kind_in};
ghost use Rattle.book.specs.Kinds.{word_of_kind};
ghost use Rattle.trees.specs.Walking.{Held, rows_said};
ghost use Rattle.tidying.specs.declared.Form.TheVariants as form;
ghost use Rattle.tidying.specs.Steps.{fits_at, fits as steps_fits};
ghost use Rattle.tidier.specs.Laying.{HeldAt, Fitted, form_at, target_of};

use book::check::kind_in;
use book::kind::Kind;
use numbers::ROW_WORDS;
use tidying::{Form, Step};
use trees::walk::{count_at, operand_at};

// A row has this kind.
fn begins(rows: &[u64], row: usize, kind: Kind) -> bool
    requires { row < length rows.now / ROW_WORDS }
    ensures { result ≡ eqb (kind_in rows.now row) (word_of_kind kind) }
{
    kind_in(rows, row) == kind.word()
}

// A Not of a Not.
fn is_not_not<'a>(rows: &'a [u64], operands: &'a [u64], row: usize) -> bool
    requires { HeldAt rows.now operands.now row }
    ensures { result ≡ fits_at form.Nots (rows_said rows.now operands.now) row }
{
    if !begins(rows, row, Kind::Not) {
        return false;
    }
    let below = operand_at(rows, operands, row, 1);
    begins(rows, below, Kind::Not)
}

// An And or an Or of one operand.
fn is_single<'a>(rows: &'a [u64], operands: &'a [u64], row: usize) -> bool
    requires { HeldAt rows.now operands.now row }
    ensures { result ≡ fits_at form.Single (rows_said rows.now operands.now) row }
{
    if count_at(rows, row) != 1 {
        return false;
    }
    begins(rows, row, Kind::And) || begins(rows, row, Kind::Or)
}

// A row has the form that a step asks for.
fn fits_at<'a>(rows: &'a [u64], operands: &'a [u64], form: Form, row: usize) -> bool
    requires { HeldAt rows.now operands.now row }
    ensures { result ≡ fits_at form (rows_said rows.now operands.now) row }
{
    match form {
        Form::Nots => is_not_not(rows, operands, row),
        Form::Single => is_single(rows, operands, row),
        Form::Implication => begins(rows, row, Kind::Implies),
        Form::History => begins(rows, row, Kind::Historically),
        Form::Unknown => false,
    }
}

// The row is there and has the form.
pub fn fits<'a>(rows: &'a [u64], operands: &'a [u64], step: Step) -> bool
    requires { Held rows.now operands.now }
    ensures { result ≡ steps_fits (rows_said rows.now operands.now) step }
{
    if rows.len() / ROW_WORDS <= step.row {
        return false;
    }
    fits_at(rows, operands, step.form, step.row)
}

// The form that a step has at a row: none but at the row that it names.
pub fn form_here(step: Step, row: usize) -> Form
    ensures { result ≡ form_at step row }
{
    if row == step.row {
        return step.form;
    }
    Form::Unknown
}

// The row that is laid in the place of a row: another one where the step drops it.
pub fn stand_in<'a>(rows: &'a [u64], operands: &'a [u64], step: Step, row: usize) -> usize
    requires { Fitted rows.now operands.now step row }
    ensures { result ≡ target_of (rows_said rows.now operands.now) step row }
{
    match form_here(step, row) {
        Form::Nots => operand_at(rows, operands, operand_at(rows, operands, row, 1), 1),
        Form::Single => operand_at(rows, operands, row, 1),
        Form::Implication | Form::History | Form::Unknown => row,
    }
}
