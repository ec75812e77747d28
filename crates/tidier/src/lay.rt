// The rows of a book after a step, laid as the rows before it are walked: the parts of a row have lower numbers than it, so
// the walk ends.
ghost use Rattle.std.specs.Prelude.{◌≡◌, true, ◌++◌, ◌+◌, ◌/◌, ◌<◌, length, get_or};
ghost use Rattle.numbers.specs.Limits.{ROW_WORDS};
ghost use Rattle.trees.specs.Walking.{rows_said};
ghost use Rattle.tidier.specs.Laying.{full_laid, kind_after, over_part, Layable, over_all, words_at, Endable, Adds, AddsNot, Ends, Visitable, Lays, Steppable, LaysAll};

use crate::fit::{form_here, stand_in};
use book::check::{
    arg_in, assumes_part, guarantees_part, kind_in, lower_in, operands_part, place_accepted,
    rows_part, upper_in,
};
use book::kind::Kind;
use numbers::MOST_ROWS;
use tidying::{Form, Step};
use trees::rows::{RowWords, Spot, emit};
use trees::walk::{count_at, operand_at};

// How many rows there are so far, how many operands, and how many rows that no other has taken yet. More than MOST_ROWS
// rows are not laid: the book has grown too long, and nothing is known of the rest.
#[derive(Clone, Copy)]
pub struct Laid {
    pub rows: usize,
    pub operands: usize,
    pub height: usize,
}

// Where a walk stands: the step; the row whose parts are laid, and how many of them are left; how many rows no other had
// taken when it came to that row; and what is laid.
#[derive(Clone, Copy)]
pub struct Site {
    pub step: Step,
    pub row: usize,
    pub left: usize,
    pub base: usize,
    pub laid: Laid,
}

// Too many rows.
fn full() -> Laid
    ensures { result ≡ full_laid }
{
    Laid {
        rows: MOST_ROWS + 1,
        operands: 0,
        height: 0,
    }
}

// A row is laid over the rows from `base` on that no other has taken.
fn lay_row(
    laid: Laid,
    base: usize,
    words: RowWords,
    rows: &mut [u64],
    operands: &mut [u64],
    tops: &mut [u64],
) -> Laid
    requires { Layable laid (length rows.old) (length operands.old) (length tops.old) }
    ensures { Adds laid base words rows.old operands.old tops.old result rows.new operands.new tops.new }
{
    let row = laid.rows;
    let height = laid.height;
    if MOST_ROWS <= row {
        return full();
    }
    if height < base {
        return full();
    }
    let spot = Spot {
        row,
        base,
        height,
        operands: laid.operands,
    };
    emit(rows, operands, tops, spot, words);
    Laid {
        rows: row + 1,
        operands: laid.operands + (height - base),
        height: base + 1,
    }
}

// A Not is laid over the last row that no other has taken.
fn lay_not(laid: Laid, rows: &mut [u64], operands: &mut [u64], tops: &mut [u64]) -> Laid
    requires { Layable laid (length rows.old) (length operands.old) (length tops.old) }
    ensures { AddsNot true laid rows.old operands.old tops.old result rows.new operands.new tops.new }
{
    let height = laid.height;
    if height == 0 {
        return full();
    }
    let words = RowWords {
        kind: Kind::Not.word(),
        arg: 1,
        lower: 0,
        upper: 0,
    };
    lay_row(laid, height - 1, words, rows, operands, tops)
}

// A Not, or nothing.
fn lay_not_if(
    over: bool,
    laid: Laid,
    rows: &mut [u64],
    operands: &mut [u64],
    tops: &mut [u64],
) -> Laid
    requires { Layable laid (length rows.old) (length operands.old) (length tops.old) }
    ensures { AddsNot over laid rows.old operands.old tops.old result rows.new operands.new tops.new }
{
    if over {
        return lay_not(laid, rows, operands, tops);
    }
    laid
}

// A Not stands over the first part of an Implies or a Historically that is remade.
#[tactic(auto, unfolding(crate::specs::Laying::over_part))]
fn over_part(form: Form, left: usize, count: usize) -> bool
    ensures { result ≡ over_part form left count }
{
    match form {
        Form::Implication | Form::History => left == count,
        Form::Nots | Form::Single | Form::Unknown => false,
    }
}

// An Or stands for an Implies that is remade, a Once for a Historically.
fn kind_after(form: Form, kind: u64) -> u64
    ensures { result ≡ kind_after form kind }
{
    match form {
        Form::Implication => Kind::Or.word(),
        Form::History => Kind::Once.word(),
        Form::Nots | Form::Single | Form::Unknown => kind,
    }
}

// A Not stands over all of a Historically that is remade.
fn over_all(form: Form) -> bool
    ensures { result ≡ over_all form }
{
    matches!(form, Form::History)
}

// A row's words after the step.
fn words_after(rows: &[u64], form: Form, row: usize) -> RowWords
    requires { row < length rows.now / ROW_WORDS }
    ensures { result ≡ words_at rows.now form row }
{
    RowWords {
        kind: kind_after(form, kind_in(rows, row)),
        arg: arg_in(rows, row),
        lower: lower_in(rows, row),
        upper: upper_in(rows, row),
    }
}

// All parts of a row are laid: the row itself is.
fn lay_end(
    source: &[u64],
    site: Site,
    rows: &mut [u64],
    operands: &mut [u64],
    tops: &mut [u64],
) -> Laid
    requires { Endable source.now site (length rows.old) (length operands.old) (length tops.old) }
    ensures { Ends source.now site rows.old operands.old tops.old result rows.new operands.new tops.new }
{
    let form = form_here(site.step, site.row);
    let words = words_after(source, form, site.row);
    let laid = lay_row(site.laid, site.base, words, rows, operands, tops);
    lay_not_if(over_all(form), laid, rows, operands, tops)
}

// The last parts of a row, `left` of them, and the row are laid.
fn lay_rest<'a>(
    source: &'a [u64],
    links: &'a [u64],
    site: Site,
    rows: &mut [u64],
    operands: &mut [u64],
    tops: &mut [u64],
) -> Laid
    requires { Visitable source.now links.now site (length rows.old) (length operands.old) (length tops.old) }
    ensures { Lays (rows_said source.now links.now) site rows.old operands.old tops.old result rows.new operands.new tops.new }
{
    let row = site.row;
    let left = site.left;
    let step = site.step;
    let laid = site.laid;
    if left == 0 {
        return lay_end(source, site, rows, operands, tops);
    }
    let part = stand_in(source, links, step, operand_at(source, links, row, left));
    let inner = Site {
        step,
        row: part,
        left: count_at(source, part),
        base: laid.height,
        laid,
    };
    let below = lay_rest(source, links, inner, rows, operands, tops);
    let over = over_part(form_here(step, row), left, count_at(source, row));
    let next = lay_not_if(over, below, rows, operands, tops);
    let rest = Site {
        step,
        row,
        left: left - 1,
        base: site.base,
        laid: next,
    };
    lay_rest(source, links, rest, rows, operands, tops)
}

// A property, assumes first.
fn property_at<'a>(assumes: &'a [u64], guarantees: &'a [u64], i: usize) -> usize
    requires { i < length assumes.now + length guarantees.now }
    ensures { result ≡ get_or (assumes.now ++ guarantees.now) i 0 }
{
    let before = assumes.len();
    if i < before {
        return assumes[i] as usize;
    }
    guarantees[i - before] as usize
}

// The properties of a book are laid as they are after a step that fits, assumes first.
pub fn lay_all(
    book: &[u64],
    step: Step,
    rows: &mut [u64],
    operands: &mut [u64],
    tops: &mut [u64],
) -> Laid
    requires { Steppable book.now step (length rows.old) (length operands.old) (length tops.old) }
    ensures { LaysAll book.now step result rows.new operands.new tops.new }
{
    let places = place_accepted(book);
    let source = rows_part(book, places);
    let links = operands_part(book, places);
    let assumes = assumes_part(book, places);
    let guarantees = guarantees_part(book, places);
    let mut laid = Laid {
        rows: 0,
        operands: 0,
        height: 0,
    };
    for i in 0..assumes.len() + guarantees.len() {
        let row = stand_in(source, links, step, property_at(assumes, guarantees, i));
        let site = Site {
            step,
            row,
            left: count_at(source, row),
            base: laid.height,
            laid,
        };
        laid = lay_rest(source, links, site, rows, operands, tops);
    }
    laid
}
