// Loading: a book's words judged, and an accepted book put into a monitor's lent memory.
#![tactic(auto)]

mod flat;

ghost use Rattle.std.specs.Prelude.{◌≡◌, ◌+◌, ◌*◌, ◌/◌, ◌≤◌, ◌<◌, max, length, replicate};
ghost use Rattle.std.proofs.Math.Seq.{paste};
ghost use Rattle.pmtl.specs.Book.{empty_book};
ghost use Rattle.memory.specs.Layout.{ROWS, ROW, SIZE};
ghost use Rattle.memory.specs.Words.{word_of_way};
ghost use Rattle.numbers.specs.Limits.{ROW_WORDS, MOST_ATOMS, MOST_ROWS};
ghost use Rattle.numbers.specs.Refusals.{refused_with};
ghost use Rattle.book.specs.Placing.{sections_of, parts_of, Counted};
ghost use Rattle.book.specs.Judging.{start_in, temporals_in, book_in};
ghost use Rattle.book.specs.Loading.{way_in};
ghost use Rattle.loader.specs.Loading.{Loads};
ghost use Rattle.loader.specs.Private.{reach, width_in, words_with, row_put, rows_put, word_for, head_put, Rowed, Accepted, Zeroed, Holds, Stored};

use book::check::{
    Places, arg_in, assumes_part, guarantees_part, kind_in, lower_in, operands_part, rows_part,
    taken_by, upper_in,
};
use book::kind::Kind;
use book::loading::Loading;
use book::strict::place_by;
use memory::{
    ARG, ASSUMES, GUARANTEES, LOWER, OPERANDS, OWNERS, PROPERTIES, ROW, ROW_COUNT, ROWS, SIZE,
    SLOT, START, TEMPORALS, UPPER, WAY, WIDTH, Way,
};
use numbers::{ROW_WORDS, Refusal};

// What the head of a memory says of its rows: the largest atom plus 1, and how many are temporal.
#[derive(Clone, Copy)]
struct Totals {
    width: u64,
    temporals: u64,
}

// The width with one more row.
fn wider(width: u64, kind: u64, arg: u64) -> u64
    requires { reach kind arg ≤ MOST_ATOMS }
    ensures { result ≡ max width (reach kind arg) }
{
    if kind == Kind::Atom.word() {
        width.max(arg + 1)
    } else {
        width
    }
}

// The six words of a row, one by one: each place has a name, of which a copied array would say none.
fn put_words(given: &[u64], row: usize, start: usize, slot: usize, monitor: &mut [u64])
    requires { (row < MOST_ROWS) × (row < length given.now / ROW_WORDS) × (length monitor.old ≡ SIZE) }
    ensures { monitor.new ≡ paste monitor.old (ROWS + ROW * row) (words_with given.now row start slot) ROW }
{
    let at = ROWS + ROW * row;
    monitor[at] = kind_in(given, row);
    monitor[at + ARG] = arg_in(given, row);
    monitor[at + LOWER] = lower_in(given, row);
    monitor[at + UPPER] = upper_in(given, row);
    monitor[at + START] = start as u64;
    monitor[at + SLOT] = slot as u64;
}

// A row, and where it is temporal its set's owner; answers with the next row's set.
fn put_row(given: &[u64], row: usize, start: usize, slot: usize, monitor: &mut [u64]) -> usize
    requires rowed { Rowed given.now }
    requires row_in_bounds { (row < length given.now / ROW_WORDS) × (length monitor.old ≡ SIZE) }
    requires start_value { (start ≡ start_in given.now row) × (slot ≡ temporals_in given.now row) }
    ensures { (result ≡ temporals_in given.now (row + 1)) × (monitor.new ≡ row_put given.now monitor.old row) }
{
    if kind_in(given, row) < Kind::Historically.word() {
        put_words(given, row, start, 0, monitor);
        return slot;
    }
    put_words(given, row, start, slot, monitor);
    monitor[OWNERS + slot] = row as u64;
    slot + 1
}

// All rows, one pass: each row's operands start where those of the row before it end.
fn put_rows(given: &[u64], monitor: &mut [u64]) -> Totals
    requires rowed { Rowed given.now }
    requires monitor_len { length monitor.old ≡ SIZE }
    ensures { (result.width ≡ width_in given.now (length given.now / ROW_WORDS)) × (result.temporals ≡ temporals_in given.now (length given.now / ROW_WORDS)) × (monitor.new ≡ rows_put given.now monitor.old (length given.now / ROW_WORDS)) }
{
    let rows = given.len() / ROW_WORDS;
    let mut start = 0;
    let mut slot = 0;
    let mut width = 0;
    for row in 0..rows {
        let kind = kind_in(given, row);
        let arg = arg_in(given, row);
        slot = put_row(given, row, start, slot, monitor);
        start += taken_by(kind, arg);
        width = wider(width, kind, arg);
    }
    Totals {
        width,
        temporals: slot as u64,
    }
}

// The way of monitoring that a way of loading is for.
fn way_for(way: Loading) -> Way
    ensures { word_of_way result ≡ word_for (way_in way) }
{
    match way {
        Loading::Ordinary | Loading::Strict => Way::Ordinary,
        Loading::Lasting | Loading::LastingStrict => Way::Lasting,
    }
}

// The words before the rows.
fn put_head(
    monitor: &mut [u64],
    way: Loading,
    rows: u64,
    totals: Totals,
    assumes: u64,
    guarantees: u64,
)
    requires { length monitor.old ≡ SIZE }
    ensures { monitor.new ≡ head_put monitor.old (way_in way) rows totals.width totals.temporals assumes guarantees }
{
    monitor[ROW_COUNT] = rows;
    monitor[WIDTH] = totals.width;
    monitor[TEMPORALS] = totals.temporals;
    monitor[ASSUMES] = assumes;
    monitor[GUARANTEES] = guarantees;
    monitor[WAY] = way_for(way).word();
}

// The memory of an accepted book, in a memory of zeros.
fn store<'a>(
    way: Loading,
    given: &'a [u64],
    operands: &'a [u64],
    assumes: &'a [u64],
    guarantees: &'a [u64],
    monitor: &mut [u64],
)
    requires accepted { Accepted (sections_of given.now operands.now assumes.now guarantees.now) }
    requires zeroed { Zeroed monitor.old }
    ensures { Holds (way_in way) (book_in (sections_of given.now operands.now assumes.now guarantees.now)) monitor.new }
{
    lists::copy(operands, monitor, OPERANDS);
    lists::copy(assumes, monitor, PROPERTIES);
    lists::copy(guarantees, monitor, PROPERTIES + assumes.len());
    let totals = put_rows(given, monitor);
    put_head(
        monitor,
        way,
        (given.len() / ROW_WORDS) as u64,
        totals,
        assumes.len() as u64,
        guarantees.len() as u64,
    );
}

// The book of these words, whose sections stand where places tell.
fn store_parts(way: Loading, words: &[u64], places: Places, monitor: &mut [u64])
    requires counted { Counted words.now places.rows places.operands places.assumes places.guarantees }
    requires accepted { Accepted (parts_of words.now places.rows places.operands places.assumes places.guarantees) × Zeroed monitor.old }
    ensures { Holds (way_in way) (book_in (parts_of words.now places.rows places.operands places.assumes places.guarantees)) monitor.new }
{
    store(
        way,
        rows_part(words, places),
        operands_part(words, places),
        assumes_part(words, places),
        guarantees_part(words, places),
        monitor,
    );
}

// The memory of an empty book, whatever stood there before: it has its way, too.
fn store_empty(way: Loading, monitor: &mut [u64])
    requires { length monitor.old ≡ SIZE }
    ensures { Holds (way_in way) empty_book monitor.new }
{
    monitor.fill(0);
    monitor[WAY] = way_for(way).word();
}

// Loading as far as the words alone tell, and but for the tables, over a memory of zeros whose length is not part of its type.
fn store_judged(way: Loading, words: &[u64], monitor: &mut [u64]) -> Result<(), Refusal>
    requires { Zeroed monitor.old }
    ensures { Stored way words.now monitor.new (refused_with result) }
{
    match place_by(way, words) {
        Ok(places) => {
            store_parts(way, words, places, monitor);
            Ok(())
        }
        Err(refusal) => {
            store_empty(way, monitor);
            Err(refusal)
        }
    }
}

// Loads a book from words in a way of loading: a fresh monitor of it, or of an empty book where it is refused. For a caller whose
// memory is all zeros already.
pub fn load_in_zeros(way: Loading, words: &[u64], monitor: &mut [u64; SIZE]) -> Result<(), Refusal>
    requires { monitor.old ≡ replicate SIZE 0 }
    ensures { Loads way words.now monitor.new (refused_with result) }
{
    let judged = store_judged(way, words, monitor);
    tables::work_out(monitor);
    if flat::is_taken(monitor) {
        return judged;
    }
    store_empty(way, monitor);
    tables::work_out(monitor);
    Err(Refusal::Nested)
}

// The same, whatever stood in the memory before.
pub fn load_by(way: Loading, words: &[u64], monitor: &mut [u64; SIZE]) -> Result<(), Refusal>
    ensures { Loads way words.now monitor.new (refused_with result) }
{
    monitor.fill(0);
    load_in_zeros(way, words, monitor)
}

// Loads a book as any that is in order.
pub fn load(words: &[u64], monitor: &mut [u64; SIZE]) -> Result<(), Refusal>
    ensures { Loads Loading.Ordinary words.now monitor.new (refused_with result) }
{
    load_by(Loading::Ordinary, words, monitor)
}

// Loads a book so that no call ever lacks room: one in which a row can need more runs than a set may have is refused, too.
pub fn load_strict(words: &[u64], monitor: &mut [u64; SIZE]) -> Result<(), Refusal>
    ensures { Loads Loading.Strict words.now monitor.new (refused_with result) }
{
    load_by(Loading::Strict, words, monitor)
}

// Loads a book for the lasting way of monitoring, in which a state lasts until the next call: one in which a temporal row lies below another is refused,
// too.
pub fn load_lasting(words: &[u64], monitor: &mut [u64; SIZE]) -> Result<(), Refusal>
    ensures { Loads Loading.Lasting words.now monitor.new (refused_with result) }
{
    load_by(Loading::Lasting, words, monitor)
}

// Loads a book for the lasting way, and so that no call ever lacks room.
pub fn load_lasting_strict(words: &[u64], monitor: &mut [u64; SIZE]) -> Result<(), Refusal>
    ensures { Loads Loading.LastingStrict words.now monitor.new (refused_with result) }
{
    load_by(Loading::LastingStrict, words, monitor)
}
