// The answers of a row of a monitor's book: `ValPmtl` of the original.
#![tactic(auto)]

ghost use Rattle.std.specs.Prelude.{◌≡◌, map, ◌+◌, ◌≤◌, ◌<◌, eqb};
ghost use Rattle.numbers.specs.Limits.{MOST_ATOMS, MOST_ROWS, MOST_TEMPORALS};
ghost use Rattle.numset.specs.Runs.{has};
ghost use Rattle.memory.specs.Kept.{BookKept, Span, Sound};
ghost use Rattle.memory.specs.Memory.{row_count, kind_at, slot_at, row_said, operand_at, operands_from, range_at, atom_at, is_one, state_of};
ghost use Rattle.memory.specs.Tables.{value_of};
ghost use Rattle.row_answers.specs.Told.{covers_in, gone_in, early_told, settled_told};
ghost use Rattle.row_answers.specs.Private.{joined, early_so_far, settled_so_far};
ghost use Rattle.book.specs.Rows.{HISTORICALLY};
ghost use Rattle.pmtl.specs.Book.Row.{since};
ghost use Rattle.pmtl.specs.Monitor.{set_at};
ghost use Rattle.pmtl.specs.Early.{early_rule};
ghost use Rattle.pmtl.specs.Settled.{settled_rule};

mod rules;

use book::kind::Kind;
use memory::{RowSaid, SIZE, Standing, operand_at, read_row};
use pmtl::Answer;
use rules::{
    decides_it, early_covered, early_historically, early_once, implied, settled_historically,
    settled_left, settled_once, taken_in,
};

// Whether an atom holds.
fn atom_at(monitor: &[u64; SIZE], atom: usize) -> bool
    requires { atom < MOST_ATOMS }
    ensures { result ≡ is_one (atom_at monitor.now atom) }
{
    memory::word(monitor, memory::ATOMS + atom) == 1
}

// Whether a temporal row's set contains the clock.
fn here_at(monitor: &[u64; SIZE], row: usize) -> bool
    requires sound { Sound monitor.now }
    requires row_bound { (row < row_count monitor.now) × (HISTORICALLY ≤ kind_at monitor.now row) }
    ensures { result ≡ has (set_at (state_of monitor.now) row) (state_of monitor.now).now.clock }
{
    let slot = memory::slot_at(monitor, row);
    ring::contains(memory::set_at(monitor, slot), memory::clock(monitor))
}

// Whether a temporal row was told that its set has every instant from the clock on: `contains_unbounded_interval` of the original.
fn covers_at(monitor: &[u64; SIZE], row: usize) -> bool
    requires { (row < MOST_ROWS) × (slot_at monitor.now row < MOST_TEMPORALS) }
    ensures { result ≡ covers_in monitor.now row }
{
    memory::told_at(monitor, memory::slot_at(monitor, row)) == Standing::Covers as u64
}

// Whether it was told that nothing of its set can matter any more.
fn gone_at(monitor: &[u64; SIZE], row: usize) -> bool
    requires { (row < MOST_ROWS) × (slot_at monitor.now row < MOST_TEMPORALS) }
    ensures { result ≡ gone_in monitor.now row }
{
    memory::told_at(monitor, memory::slot_at(monitor, row)) == Standing::Gone as u64
}

// Whether a row's range begins at the instant itself: `range.contains(&0)` of the original.
fn from_now(words: RowSaid) -> bool
    ensures { result ≡ eqb words.lower 0 }
{
    words.lower == 0
}

// Whether a row holds, walked down to its atoms and sets.
#[cycle(output_output_walk)]
pub fn output(monitor: &[u64; SIZE], row: usize) -> bool
    requires sound { Sound monitor.now }
    requires row_bound { row < row_count monitor.now }
    ensures { result ≡ value_of monitor.now row }
{
    let words = read_row(monitor, row);
    match words.kind {
        Kind::False => false,
        Kind::True => true,
        Kind::Atom => atom_at(monitor, words.arg),
        Kind::And => output_walk(monitor, words.start, words.arg, false),
        Kind::Or => output_walk(monitor, words.start, words.arg, true),
        Kind::Not => !output(monitor, operand_at(monitor, words.start)),
        Kind::Implies => {
            if output(monitor, operand_at(monitor, words.start)) {
                output(monitor, operand_at(monitor, words.start + 1))
            } else {
                true
            }
        }
        Kind::Historically => !here_at(monitor, row),
        Kind::Once | Kind::Since => here_at(monitor, row),
    }
}

// Asks `left` operands from `place` on, in turn, until one answers `stop`. Each is below the row that they are operands of: so the
// recursion ends. Place and left stay plain numbers, since a struct of them would go through memory at each call.
#[cycle(output_output_walk)]
fn output_walk(monitor: &[u64; SIZE], place: usize, left: usize, stop: bool) -> bool
    requires sound { Sound monitor.now }
    requires span { Span monitor.now (row_count monitor.now) place left }
    ensures { result ≡ joined stop (map (value_of monitor.now) (operands_from monitor.now place left)) }
{
    for at in place..place + left {
        if output(monitor, operand_at(monitor, at)) == stop {
            return stop;
        }
    }
    !stop
}

// A row's early answer.
#[cycle(valuation_valuation_since_valuation_walk)]
pub fn valuation(monitor: &[u64; SIZE], row: usize) -> Answer
    requires book_kept { BookKept monitor.now }
    requires row_bound { row < row_count monitor.now }
    ensures { result ≡ early_told monitor.now row }
{
    let words = read_row(monitor, row);
    match words.kind {
        Kind::False => Answer::False,
        Kind::True => Answer::True,
        Kind::Atom => Answer::Open,
        Kind::And => valuation_walk(monitor, words.start, words.arg, false, Answer::True),
        Kind::Or => valuation_walk(monitor, words.start, words.arg, true, Answer::False),
        Kind::Not => valuation(monitor, operand_at(monitor, words.start)).negated(),
        Kind::Implies => {
            let right = valuation(monitor, operand_at(monitor, words.start + 1));
            if right == Answer::True {
                return Answer::True;
            }
            let left = valuation(monitor, operand_at(monitor, words.start));
            implied(left, right)
        }
        Kind::Historically => {
            let x = valuation(monitor, operand_at(monitor, words.start));
            early_historically(from_now(words), covers_at(monitor, row), x)
        }
        Kind::Once => {
            let x = valuation(monitor, operand_at(monitor, words.start));
            early_once(from_now(words), covers_at(monitor, row), x)
        }
        Kind::Since => valuation_since(monitor, row, words),
    }
}

// The early answer of a Since row. Left is asked where right is not false and the set covers.
#[cycle(valuation_valuation_since_valuation_walk)]
fn valuation_since(monitor: &[u64; SIZE], row: usize, words: RowSaid) -> Answer
    requires book_kept { BookKept monitor.now }
    requires row_bound { row < row_count monitor.now }
    requires span { Span monitor.now row words.start 2 }
    requires words_value { (words ≡ row_said monitor.now row) × (slot_at monitor.now row < MOST_TEMPORALS) }
    ensures { result ≡ early_rule (covers_in monitor.now row) (since (range_at monitor.now row) (early_told monitor.now (operand_at monitor.now words.start)) (early_told monitor.now (operand_at monitor.now (words.start + 1)))) }
{
    let right = valuation(monitor, operand_at(monitor, words.start + 1));
    if right == Answer::False {
        return Answer::False;
    }
    if covers_at(monitor, row) {
        let left = valuation(monitor, operand_at(monitor, words.start));
        return early_covered(from_now(words), left);
    }
    Answer::Open
}

// Asks `left` operands from `place` on, in turn, until one is open.
#[cycle(valuation_valuation_since_valuation_walk)]
fn valuation_walk(
    monitor: &[u64; SIZE],
    place: usize,
    left: usize,
    any: bool,
    mut sofar: Answer,
) -> Answer
    requires book_kept { BookKept monitor.now }
    requires span { Span monitor.now (row_count monitor.now) place left }
    ensures { result ≡ early_so_far any sofar (map (early_told monitor.now) (operands_from monitor.now place left)) }
{
    for at in place..place + left {
        let x = valuation(monitor, operand_at(monitor, at));
        if x == Answer::Open {
            return Answer::Open;
        }
        sofar = taken_in(any, sofar, x);
    }
    sofar
}

// A row's settled answer, once a call was accepted: no further call can change its value. Early and settled stay two: their walks stop at
// other answers and their temporal rows ask in another order, so that a trait over both would have a method for all but Not and Implies.
#[cycle(settled_settled_since_settled_walk)]
pub fn settled(monitor: &[u64; SIZE], row: usize) -> Answer
    requires book_kept { BookKept monitor.now }
    requires row_bound { row < row_count monitor.now }
    ensures { result ≡ settled_told monitor.now row }
{
    let words = read_row(monitor, row);
    match words.kind {
        Kind::False => Answer::False,
        Kind::True => Answer::True,
        Kind::Atom => Answer::Open,
        Kind::And => settled_walk(monitor, words.start, words.arg, false, Answer::True),
        Kind::Or => settled_walk(monitor, words.start, words.arg, true, Answer::False),
        Kind::Not => settled(monitor, operand_at(monitor, words.start)).negated(),
        Kind::Implies => {
            let right = settled(monitor, operand_at(monitor, words.start + 1));
            if right == Answer::True {
                return Answer::True;
            }
            let left = settled(monitor, operand_at(monitor, words.start));
            implied(left, right)
        }
        Kind::Historically => {
            if covers_at(monitor, row) {
                return Answer::False;
            }
            let x = settled(monitor, operand_at(monitor, words.start));
            settled_historically(from_now(words), gone_at(monitor, row), x)
        }
        Kind::Once => {
            if covers_at(monitor, row) {
                return Answer::True;
            }
            let x = settled(monitor, operand_at(monitor, words.start));
            settled_once(from_now(words), gone_at(monitor, row), x)
        }
        Kind::Since => settled_since(monitor, row, words),
    }
}

// The settled answer of a Since row. Right is asked where left does not decide.
#[cycle(settled_settled_since_settled_walk)]
fn settled_since(monitor: &[u64; SIZE], row: usize, words: RowSaid) -> Answer
    requires book_kept { BookKept monitor.now }
    requires row_bound { row < row_count monitor.now }
    requires span { Span monitor.now row words.start 2 }
    requires words_value { (words ≡ row_said monitor.now row) × (slot_at monitor.now row < MOST_TEMPORALS) }
    ensures { result ≡ settled_rule (covers_in monitor.now row) (gone_in monitor.now row) (since (range_at monitor.now row) (settled_told monitor.now (operand_at monitor.now words.start)) (settled_told monitor.now (operand_at monitor.now (words.start + 1)))) }
{
    let left = settled(monitor, operand_at(monitor, words.start));
    let by_left = settled_left(from_now(words), covers_at(monitor, row), left);
    if by_left == Answer::Open {
        let right = settled(monitor, operand_at(monitor, words.start + 1));
        return settled_once(from_now(words), gone_at(monitor, row), right);
    }
    by_left
}

// Asks `left` operands from `place` on, in turn, until one decides.
#[cycle(settled_settled_since_settled_walk)]
fn settled_walk(
    monitor: &[u64; SIZE],
    place: usize,
    left: usize,
    any: bool,
    mut sofar: Answer,
) -> Answer
    requires book_kept { BookKept monitor.now }
    requires span { Span monitor.now (row_count monitor.now) place left }
    ensures { result ≡ settled_so_far any sofar (map (settled_told monitor.now) (operands_from monitor.now place left)) }
{
    for at in place..place + left {
        let x = settled(monitor, operand_at(monitor, at));
        if decides_it(any, x) {
            return x;
        }
        sofar = taken_in(any, sofar, x);
    }
    sofar
}
