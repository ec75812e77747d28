// A book handed over as words: what it is refused with, and where its sections stand.
ghost use Rattle.std.specs.Prelude.{◌≡◌, true, ◌/◌, ◌≤◌, ◌<◌, length, drop, ltb, eqb, IfOk, IfErr};
ghost use Rattle.std.specs.List.{list_all};
ghost use Rattle.book.specs.Rows.{temporal, count_of};
ghost use Rattle.book.specs.Kinds.{word_of_kind};
ghost use Rattle.book.specs.Reading.{refused, section};
ghost use Rattle.book.specs.Judging.{kind_in, arg_in, lower_in, upper_in, temporals_in, first_to, arg_good, form_good, range_good, row_number, links_good, used_once, judged, loaded, refused_with as refused_book};
ghost use Rattle.book.specs.Placing.{parts_of, Counted};
ghost use Rattle.book.specs.Private.{said_by, operands_met, Countable, Tallied, Few, Linked, SectionCounting};
ghost use Rattle.numbers.specs.Limits.{MOST_ROWS, ROW_WORDS};
ghost use Rattle.numbers.specs.Refusals.{ACCEPTED, WRONG_LENGTH, number_of, refused_with};

use crate::kind::Kind;
use numbers::{
    LAST_TIME, MAX, MOST_ASSUMES, MOST_GUARANTEES, MOST_OPERANDS, MOST_ROWS, MOST_TEMPORALS,
    ROW_WORDS, Refusal,
};

// A section's count takes a word, and so does an operand or a property.
const COUNT_WORD: usize = 1;

const NUMBER_WORDS: usize = 1;

// Where a row's words stand in it, after its kind.
const ARG: usize = 1;

const LOWER: usize = 2;

const UPPER: usize = 3;

// The sections of a book, without their counts.
#[derive(Clone, Copy)]
struct Sections<'a> {
    rows: &'a [u64],
    operands: &'a [u64],
    assumes: &'a [u64],
    guarantees: &'a [u64],
}

// How many rows, operands, assumes and guarantees there are.
#[derive(Clone, Copy, Debug, PartialEq, Eq)]
pub struct Places {
    pub rows: usize,
    pub operands: usize,
    pub assumes: usize,
    pub guarantees: usize,
}

// A section: how many items it has, and where the words after it begin.
#[derive(Clone, Copy)]
struct Section {
    count: usize,
    next: usize,
}

// The section whose count stands at a place. The count is judged before what follows it.
fn read_section(words: &[u64], at: usize, limit: usize, size: usize) -> Result<Section, Refusal>
    requires { (at ≤ length words.now) × (limit ≤ MOST_ROWS) × (size ≤ ROW_WORDS) }
    ensures ok { IfOk result (λ s. SectionCounting words.now at limit size s.count s.next) }
    ensures err { IfErr result (λ r. section WRONG_LENGTH limit size (drop at words.now) ≡ refused (number_of r)) }
{
    if at == words.len() {
        return Err(Refusal::WrongLength);
    }
    let count = words[at] as usize;
    if limit < count {
        return Err(Refusal::PastLimit);
    }
    let first = at + COUNT_WORD;
    let room = size * count;
    if words.len() - first < room {
        return Err(Refusal::WrongLength);
    }
    Ok(Section {
        count,
        next: first + room,
    })
}

// How many there are of everything, or what ends the reading.
fn counts(words: &[u64]) -> Result<Places, Refusal>
    ensures ok { IfOk result (λ p. Counted words.now p.rows p.operands p.assumes p.guarantees) }
    ensures err { IfErr result (λ r. loaded words.now ≡ refused_book (number_of r)) }
{
    let rows = read_section(words, 0, MOST_ROWS, ROW_WORDS)?;
    let operands = read_section(words, rows.next, MOST_OPERANDS, NUMBER_WORDS)?;
    let assumes = read_section(words, operands.next, MOST_ASSUMES, NUMBER_WORDS)?;
    let guarantees = read_section(words, assumes.next, MOST_GUARANTEES, NUMBER_WORDS)?;
    if guarantees.next < words.len() {
        return Err(Refusal::WrongLength);
    }
    Ok(Places {
        rows: rows.count,
        operands: operands.count,
        assumes: assumes.count,
        guarantees: guarantees.count,
    })
}

// What the words of a row say. A kind is a word here, since a book's words may say none.
pub fn kind_in(rows: &[u64], row: usize) -> u64
    requires { row < length rows.now / ROW_WORDS }
    ensures { result ≡ kind_in rows.now row }
{
    rows[ROW_WORDS * row]
}

pub fn arg_in(rows: &[u64], row: usize) -> u64
    requires { row < length rows.now / ROW_WORDS }
    ensures { result ≡ arg_in rows.now row }
{
    rows[ROW_WORDS * row + ARG]
}

pub fn lower_in(rows: &[u64], row: usize) -> u64
    requires { row < length rows.now / ROW_WORDS }
    ensures { result ≡ lower_in rows.now row }
{
    rows[ROW_WORDS * row + LOWER]
}

pub fn upper_in(rows: &[u64], row: usize) -> u64
    requires { row < length rows.now / ROW_WORDS }
    ensures { result ≡ upper_in rows.now row }
{
    rows[ROW_WORDS * row + UPPER]
}

// Whether a row is temporal. A word past the last kind counts as that, which is.
#[tactic(auto, using(crate::proofs::KindWords::temporal_kind))]
pub fn is_temporal(rows: &[u64], row: usize) -> bool
    requires { row < length rows.now / ROW_WORDS }
    ensures { result ≡ temporal (kind_in rows.now row) }
{
    Kind::of_word(kind_in(rows, row)).is_temporal()
}

// Whether a row has an arg that its kind takes, and bounds only where it is temporal.
#[tactic(auto, unfolding(crate::specs::Judging::form_good))]
fn has_form(kind: Kind, arg: u64, lower: u64, upper: u64) -> bool
    ensures { result ≡ form_good (word_of_kind kind) arg lower upper }
{
    kind.takes(arg) && (kind.is_temporal() || lower == 0 && upper == 0)
}

// Whether bounds are a range that does not reach too far.
#[tactic(auto, unfolding(crate::specs::Judging::range_good))]
fn is_range(lower: u64, upper: u64) -> bool
    ensures { result ≡ range_good lower upper }
{
    lower <= upper && lower <= LAST_TIME && (upper == MAX || upper <= LAST_TIME)
}

// Refuses a row by its form, then its range, then where there is no set for it; so many before it are temporal.
fn judge_row(rows: &[u64], row: usize, temporals: usize) -> Result<(), Refusal>
    requires { (row < length rows.now / ROW_WORDS) × (temporals ≡ temporals_in rows.now row) }
    ensures { refused_with result ≡ row_number rows.now row }
{
    let kind = Kind::try_from(kind_in(rows, row))?;
    let lower = lower_in(rows, row);
    let upper = upper_in(rows, row);
    if !has_form(kind, arg_in(rows, row), lower, upper) {
        return Err(Refusal::WrongForm);
    }
    if !is_range(lower, upper) {
        return Err(Refusal::WrongRange);
    }
    if kind.is_temporal() && temporals >= MOST_TEMPORALS {
        return Err(Refusal::PastLimit);
    }
    Ok(())
}

// Refuses rows in their order.
fn judge_rows(rows: &[u64]) -> Result<(), Refusal>
    ensures { refused_with result ≡ first_to (row_number rows.now) (length rows.now / ROW_WORDS) }
{
    let mut temporals = 0;
    for row in 0..rows.len() / ROW_WORDS {
        judge_row(rows, row, temporals)?;
        temporals += usize::from(is_temporal(rows, row));
    }
    Ok(())
}

// Whether numbers are below a bound.
fn are_below(numbers: &[u64], bound: usize) -> bool
    ensures { result ≡ list_all (λ p. ltb p bound) numbers.now }
{
    numbers.iter().all(|number| *number < bound as u64)
}

// How many operands a row takes whose arg its kind takes: from And on the arg counts them.
pub fn taken_by(kind: u64, arg: u64) -> usize
    requires { arg_good kind arg ≡ true }
    ensures { result ≡ count_of kind arg }
{
    if kind < Kind::And.word() {
        return 0;
    }
    arg as usize
}

// Whether operands are as many as the rows need, and below their owners.
fn are_operands<'a>(rows: &'a [u64], operands: &'a [u64]) -> bool
    requires { first_to (row_number rows.now) (length rows.now / ROW_WORDS) ≡ 0 }
    ensures { result ≡ operands_met rows.now operands.now }
{
    let mut start = 0;
    for row in 0..rows.len() / ROW_WORDS {
        let count = taken_by(kind_in(rows, row), arg_in(rows, row));
        if operands.len() - start < count {
            return false;
        }
        if !are_below(&operands[start..start + count], row) {
            return false;
        }
        start += count;
    }
    start == operands.len()
}

// Whether rows are linked as they should: operands, assumes, guarantees.
fn are_linked(said: Sections<'_>) -> bool
    requires { first_to (row_number said.rows.now) (length said.rows.now / ROW_WORDS) ≡ 0 }
    ensures { result ≡ links_good (said_by said.entry) }
{
    let count = said.rows.len() / ROW_WORDS;
    are_operands(said.rows, said.operands)
        && are_below(said.assumes, count)
        && are_below(said.guarantees, count)
}

// Counts in a table how often each row is used.
fn tally(uses: &[u64], times: &mut [u8; MOST_ROWS])
    requires { Countable uses.now times.old }
    ensures { Tallied uses.now times.old times.new }
{
    for row in uses {
        times[*row as usize] += 1;
    }
}

// Whether each count is 1. (`are_below` is its like for words and a bound: one function for both would take the test, and be no shorter.)
fn are_ones(times: &[u8]) -> bool
    ensures { result ≡ list_all (λ time. eqb time 1) times.now }
{
    times.iter().all(|time| *time == 1)
}

// Whether rows are used exactly once.
fn are_used_once(said: Sections<'_>) -> bool
    requires { Linked (said_by said) }
    ensures { result ≡ used_once (said_by said.entry) }
{
    let mut times = [0u8; MOST_ROWS];
    tally(said.operands, &mut times);
    tally(said.assumes, &mut times);
    tally(said.guarantees, &mut times);
    are_ones(&times[..said.rows.len() / ROW_WORDS])
}

// Refuses sections: rows in order, then links, then uses.
fn judge(said: Sections<'_>) -> Result<(), Refusal>
    requires { Few (said_by said) }
    ensures { refused_with result ≡ judged (said_by said.entry) }
{
    judge_rows(said.rows)?;
    if !are_linked(said) {
        return Err(Refusal::WrongLink);
    }
    if !are_used_once(said) {
        return Err(Refusal::WrongUse);
    }
    Ok(())
}

// The sections that places tell of: each stands after its count, and that after the section before it.
pub fn rows_part(words: &[u64], places: Places) -> &[u64]
    requires { Counted words.now places.rows places.operands places.assumes places.guarantees }
    ensures { result.now ≡ (parts_of words.now places.rows places.operands places.assumes places.guarantees).rows }
{
    lists::part_of(words, COUNT_WORD, ROW_WORDS * places.rows)
}

pub fn operands_part(words: &[u64], places: Places) -> &[u64]
    requires { Counted words.now places.rows places.operands places.assumes places.guarantees }
    ensures { result.now ≡ (parts_of words.now places.rows places.operands places.assumes places.guarantees).operands }
{
    let at = COUNT_WORD + ROW_WORDS * places.rows + COUNT_WORD;
    lists::part_of(words, at, places.operands)
}

pub fn assumes_part(words: &[u64], places: Places) -> &[u64]
    requires { Counted words.now places.rows places.operands places.assumes places.guarantees }
    ensures { result.now ≡ (parts_of words.now places.rows places.operands places.assumes places.guarantees).assumes }
{
    let operands_at = COUNT_WORD + ROW_WORDS * places.rows + COUNT_WORD;
    let at = operands_at + places.operands + COUNT_WORD;
    lists::part_of(words, at, places.assumes)
}

// The last section ends with the words.
pub fn guarantees_part(words: &[u64], places: Places) -> &[u64]
    requires { Counted words.now places.rows places.operands places.assumes places.guarantees }
    ensures { result.now ≡ (parts_of words.now places.rows places.operands places.assumes places.guarantees).guarantees }
{
    let at = words.len() - places.guarantees;
    lists::part_of(words, at, places.guarantees)
}

// Refuses words whose sections stand where places tell.
fn judge_parts(words: &[u64], places: Places) -> Result<(), Refusal>
    requires { Counted words.now places.rows places.operands places.assumes places.guarantees }
    ensures { refused_with result ≡ judged (parts_of words.now places.rows places.operands places.assumes places.guarantees) }
{
    judge(Sections {
        rows: rows_part(words, places),
        operands: operands_part(words, places),
        assumes: assumes_part(words, places),
        guarantees: guarantees_part(words, places),
    })
}

// Where the sections of an accepted book stand, or what it is refused with.
pub fn place(words: &[u64]) -> Result<Places, Refusal>
    ensures number { refused_with result ≡ (loaded words.now).number }
    ensures counted { IfOk result (λ p. Counted words.now p.rows p.operands p.assumes p.guarantees) }
{
    let places = counts(words)?;
    judge_parts(words, places)?;
    Ok(places)
}

// The same of a book that is known to be accepted.
pub fn place_accepted(words: &[u64]) -> Places
    requires { (loaded words.now).number ≡ ACCEPTED }
    ensures { Counted words.now result.rows result.operands result.assumes result.guarantees }
{
    place(words).unwrap()
}

// Refuses words that are no book in order.
pub fn check(words: &[u64]) -> Result<(), Refusal>
    ensures { refused_with result ≡ (loaded words.now).number }
{
    place(words)?;
    Ok(())
}
