// A monitor's memory: where things stand in it, and the words that are read off it.
#![tactic(auto)]

ghost use Rattle.std.specs.Prelude.{◌≡◌, ◌<◌, get_or};
ghost use Rattle.numbers.specs.Limits.{MOST_ROWS, MOST_OPERANDS, MOST_PROPERTIES, MOST_TEMPORALS};
ghost use Rattle.book.specs.Rows.{KINDS};
ghost use Rattle.book.specs.Kinds.{word_of_kind, kind_of_word};
ghost use Rattle.memory.specs.Layout.{ENTRY, SIZE};
ghost use Rattle.memory.specs.Memory.{row_count, begun_word, clock_of, width_word, temporals, assume_count, guarantee_count, way_word, kind_at, arg_at, lower_at, upper_at, start_at, row_said, slot_at, operand_at, property_row, owner_at, slot_words, value_at, told_at, early_at, settled_at, moves_at, lowest_at, fullest_word, until_word, number_word, taken_word, entry_word, is_one};
ghost use Rattle.memory.specs.Kept.{BookKept};
ghost use Rattle.memory.specs.Tables.{property_count};
ghost use Rattle.memory.specs.Words.{word_of_way, word_of_standing};

use book::kind::Kind;
use numbers::{MOST_ATOMS, MOST_OPERANDS, MOST_PROPERTIES, MOST_ROWS, MOST_TEMPORALS};

// The head: how many rows, whether a call was accepted, the clock, the largest atom plus 1, how many temporal rows, assumes and
// guarantees, the way of monitoring.
pub const ROW_COUNT: usize = 0;

pub const BEGUN: usize = 1;

pub const CLOCK: usize = 2;

pub const WIDTH: usize = 3;

pub const TEMPORALS: usize = 4;

pub const ASSUMES: usize = 5;

pub const GUARANTEES: usize = 6;

pub const WAY: usize = 7;

const HEAD: usize = 8;

// The ways, each with its word: only calls count, or a state lasts until the next call.
#[derive(Clone, Copy, Debug, PartialEq, Eq)]
pub enum Way {
    Ordinary = 0,
    Lasting = 1,
}

impl Way {
    // The word that says it.
    pub fn word(self) -> u64
        ensures { result ≡ word_of_way self }
    {
        self as u64
    }
}

// A row's words: kind, arg, lower, upper, where its operands start, which set is its own.
pub const ROW: usize = 6;

pub const ARG: usize = 1;

pub const LOWER: usize = 2;

pub const UPPER: usize = 3;

pub const START: usize = 4;

pub const SLOT: usize = 5;

// A set's words.
pub const SET: usize = ring::RING_WORDS;

// The parts, each from where the one before it ends: rows, operands, properties, atoms, the rows that the sets belong to, sets.
pub const ROWS: usize = HEAD;

pub const OPERANDS: usize = ROWS + ROW * MOST_ROWS;

pub const PROPERTIES: usize = OPERANDS + MOST_OPERANDS;

pub const ATOMS: usize = PROPERTIES + MOST_PROPERTIES;

pub const OWNERS: usize = ATOMS + MOST_ATOMS;

pub const SETS: usize = OWNERS + MOST_TEMPORALS;

// The tables, which say at one look what the rest of the memory answers: each row's value, what was told of each set, and the digits
// of each property's early and settled answer.
pub const VALUES: usize = SETS + SET * MOST_TEMPORALS;

pub const TOLD: usize = VALUES + MOST_ROWS;

pub const EARLY: usize = TOLD + MOST_TEMPORALS;

pub const SETTLED: usize = EARLY + MOST_PROPERTIES;

// And of each row whether a time call can change its value.
pub const MOVES: usize = SETTLED + MOST_PROPERTIES;

// And the lowest row at or below each row.
pub const LOWEST: usize = MOVES + MOST_ROWS;

// And how many runs the fullest set has.
pub const FULLEST: usize = LOWEST + MOST_ROWS;

// And up to when a time call moves the clock alone.
pub const UNTIL: usize = FULLEST + 1;

// What is told of a set: that it has every instant from the clock on, that it has none of them, or neither; each with its word.
#[derive(Clone, Copy, Debug, PartialEq, Eq)]
pub enum Standing {
    Neither = 0,
    Covers = 1,
    Gone = 2,
}

impl Standing {
    // The word that says it.
    pub fn word(self) -> u64
        ensures { result ≡ word_of_standing self }
    {
        self as u64
    }
}

// The ledger: the number of the last call, how many calls were accepted, and an entry for each property.
pub const LEDGER: usize = UNTIL + 1;

pub const TAKEN: usize = LEDGER + 1;

pub const ENTRIES: usize = TAKEN + 1;

// An entry's words: how many calls failed, the first and the last of them, the longest stretch, the call at which the property settled,
// and the stretch that reaches to the last accepted call.
pub const ENTRY: usize = 6;

pub const FAILED: usize = 0;

pub const FIRST: usize = 1;

pub const LAST: usize = 2;

pub const LONGEST: usize = 3;

pub const SETTLED_CALL: usize = 4;

pub const STRETCH: usize = 5;

// All words.
pub const SIZE: usize = ENTRIES + ENTRY * MOST_PROPERTIES;

// The word at a place.
pub fn word(monitor: &[u64; SIZE], at: usize) -> u64
    requires { at < SIZE }
    ensures { result ≡ get_or monitor.now at 0 }
{
    monitor[at]
}

// How many rows the book has.
pub fn row_count(monitor: &[u64; SIZE]) -> usize
    ensures { result ≡ row_count monitor.now }
{
    monitor[ROW_COUNT] as usize
}

// 1 once a call was accepted.
pub fn begun(monitor: &[u64; SIZE]) -> u64
    ensures { result ≡ begun_word monitor.now }
{
    monitor[BEGUN]
}

// The time of the last accepted time call.
pub fn clock(monitor: &[u64; SIZE]) -> u64
    ensures { result ≡ clock_of monitor.now }
{
    monitor[CLOCK]
}

// The largest atom plus 1.
pub fn width(monitor: &[u64; SIZE]) -> usize
    ensures { result ≡ width_word monitor.now }
{
    monitor[WIDTH] as usize
}

// How many rows are temporal.
pub fn temporal_count(monitor: &[u64; SIZE]) -> usize
    ensures { result ≡ temporals monitor.now }
{
    monitor[TEMPORALS] as usize
}

// How many properties are assumed.
pub fn assume_count(monitor: &[u64; SIZE]) -> usize
    ensures { result ≡ assume_count monitor.now }
{
    monitor[ASSUMES] as usize
}

// How many properties are guaranteed.
pub fn guarantee_count(monitor: &[u64; SIZE]) -> usize
    ensures { result ≡ guarantee_count monitor.now }
{
    monitor[GUARANTEES] as usize
}

// Whether a state lasts until the next call.
pub fn is_lasting(monitor: &[u64; SIZE]) -> bool
    ensures { result ≡ is_one (way_word monitor.now) }
{
    monitor[WAY] == Way::Lasting as u64
}

// How many properties there are.
pub fn property_count(monitor: &[u64; SIZE]) -> usize
    requires { BookKept monitor.now }
    ensures { result ≡ property_count monitor.now }
{
    assume_count(monitor) + guarantee_count(monitor)
}

// The words of a row: the one that says its kind.
pub fn kind_at(monitor: &[u64; SIZE], row: usize) -> u64
    requires { row < MOST_ROWS }
    ensures { result ≡ kind_at monitor.now row }
{
    monitor[ROWS + ROW * row]
}

// The kind that this says. A row of a book in order has one of these words, and then the kind's word is the row's.
pub fn row_kind(monitor: &[u64; SIZE], row: usize) -> Kind
    requires { row < MOST_ROWS }
    ensures { (result ≡ kind_of_word (kind_at monitor.now row)) × (kind_at monitor.now row < KINDS → word_of_kind result ≡ kind_at monitor.now row) }
{
    Kind::of_word(kind_at(monitor, row))
}

pub fn arg_at(monitor: &[u64; SIZE], row: usize) -> usize
    requires { row < MOST_ROWS }
    ensures { result ≡ arg_at monitor.now row }
{
    monitor[ROWS + ROW * row + ARG] as usize
}

pub fn lower_at(monitor: &[u64; SIZE], row: usize) -> u64
    requires { row < MOST_ROWS }
    ensures { result ≡ lower_at monitor.now row }
{
    monitor[ROWS + ROW * row + LOWER]
}

pub fn upper_at(monitor: &[u64; SIZE], row: usize) -> u64
    requires { row < MOST_ROWS }
    ensures { result ≡ upper_at monitor.now row }
{
    monitor[ROWS + ROW * row + UPPER]
}

pub fn start_at(monitor: &[u64; SIZE], row: usize) -> usize
    requires { row < MOST_ROWS }
    ensures { result ≡ start_at monitor.now row }
{
    monitor[ROWS + ROW * row + START] as usize
}

pub fn slot_at(monitor: &[u64; SIZE], row: usize) -> usize
    requires { row < MOST_ROWS }
    ensures { result ≡ slot_at monitor.now row }
{
    monitor[ROWS + ROW * row + SLOT] as usize
}

// What a row's answer is made from, besides its operands' answers and its set.
#[derive(Clone, Copy)]
pub struct RowSaid {
    pub kind: Kind,
    pub arg: usize,
    pub lower: u64,
    pub start: usize,
}

// A row's words, read once and by name.
pub fn read_row(monitor: &[u64; SIZE], row: usize) -> RowSaid
    requires { row < MOST_ROWS }
    ensures { result ≡ row_said monitor.now row }
{
    RowSaid {
        kind: row_kind(monitor, row),
        arg: arg_at(monitor, row),
        lower: lower_at(monitor, row),
        start: start_at(monitor, row),
    }
}

// The operand at a place of the operand section.
pub fn operand_at(monitor: &[u64; SIZE], place: usize) -> usize
    requires { place < MOST_OPERANDS }
    ensures { result ≡ operand_at monitor.now place }
{
    monitor[OPERANDS + place] as usize
}

// The row that is a property.
pub fn property_row(monitor: &[u64; SIZE], i: usize) -> usize
    requires { i < MOST_PROPERTIES }
    ensures { result ≡ property_row monitor.now i }
{
    monitor[PROPERTIES + i] as usize
}

// The row that a set belongs to.
pub fn owner_at(monitor: &[u64; SIZE], slot: usize) -> usize
    requires { slot < MOST_TEMPORALS }
    ensures { result ≡ owner_at monitor.now slot }
{
    monitor[OWNERS + slot] as usize
}

// The set of a slot.
pub fn set_at(monitor: &[u64; SIZE], slot: usize) -> &[u64]
    requires { slot < MOST_TEMPORALS }
    ensures { result.now ≡ slot_words monitor.now slot }
{
    let from = SETS + SET * slot;
    let to = from + SET;
    let words = &monitor[..];
    &words[from..to]
}

// A row's value, by the table.
pub fn value_at(monitor: &[u64; SIZE], row: usize) -> u64
    requires { row < MOST_ROWS }
    ensures { result ≡ value_at monitor.now row }
{
    monitor[VALUES + row]
}

// Whether a row holds, by the table.
pub fn holds(monitor: &[u64; SIZE], row: usize) -> bool
    requires { row < MOST_ROWS }
    ensures { result ≡ is_one (value_at monitor.now row) }
{
    monitor[VALUES + row] == 1
}

// Whether a time call can change a row's value.
pub fn moves_at(monitor: &[u64; SIZE], row: usize) -> bool
    requires { row < MOST_ROWS }
    ensures { result ≡ is_one (moves_at monitor.now row) }
{
    monitor[MOVES + row] == 1
}

// The lowest row at or below a row.
pub fn lowest_at(monitor: &[u64; SIZE], row: usize) -> usize
    requires { row < MOST_ROWS }
    ensures { result ≡ lowest_at monitor.now row }
{
    monitor[LOWEST + row] as usize
}

// How many runs the fullest set has, 0 where no row is temporal.
pub fn fullest(monitor: &[u64; SIZE]) -> u64
    ensures { result ≡ fullest_word monitor.now }
{
    monitor[FULLEST]
}

// Up to when a time call moves the clock alone.
pub fn until(monitor: &[u64; SIZE]) -> u64
    ensures { result ≡ until_word monitor.now }
{
    monitor[UNTIL]
}

// What was told of a set, the word of a `Standing`. It stays the word, as do the digits below: lent words may say none of the three.
pub fn told_at(monitor: &[u64; SIZE], slot: usize) -> u64
    requires { slot < MOST_TEMPORALS }
    ensures { result ≡ told_at monitor.now slot }
{
    monitor[TOLD + slot]
}

// The digit of a property's early answer.
pub fn early_at(monitor: &[u64; SIZE], i: usize) -> u64
    requires { i < MOST_PROPERTIES }
    ensures { result ≡ early_at monitor.now i }
{
    monitor[EARLY + i]
}

// The digit of its settled answer.
pub fn settled_at(monitor: &[u64; SIZE], i: usize) -> u64
    requires { i < MOST_PROPERTIES }
    ensures { result ≡ settled_at monitor.now i }
{
    monitor[SETTLED + i]
}

// The number of the last call.
pub fn last_call(monitor: &[u64; SIZE]) -> u64
    ensures { result ≡ number_word monitor.now }
{
    monitor[LEDGER]
}

// How many calls were accepted.
pub fn taken(monitor: &[u64; SIZE]) -> u64
    ensures { result ≡ taken_word monitor.now }
{
    monitor[TAKEN]
}

// A word of a property's entry.
pub fn entry_word(monitor: &[u64; SIZE], i: usize, word: usize) -> u64
    requires { (i < MOST_PROPERTIES) × (word < ENTRY) }
    ensures { result ≡ entry_word monitor.now i word }
{
    monitor[ENTRIES + ENTRY * i + word]
}
