// Strict loading: a book is refused, too, where a row can need more runs than a set may have, so that no call ever lacks room.
ghost use Rattle.std.specs.Prelude.{◌≡◌, true, ◌/◌, ◌<◌, length, IfOk};
ghost use Rattle.numbers.specs.Limits.{ROW_WORDS};
ghost use Rattle.numbers.specs.Refusals.{ACCEPTED, refused_with};
ghost use Rattle.pmtl.specs.Strict.{needed as strict_needed};
ghost use Rattle.book.specs.Judging.{first_to, range_good, row_number, loaded};
ghost use Rattle.book.specs.Placing.{Counted};
ghost use Rattle.book.specs.Private.{range_in, needed_in, Surplus};
ghost use Rattle.book.specs.Strict.{excess_by, roomed};

use crate::check::{Places, is_temporal, lower_in, place, rows_part, upper_in};
use crate::loading::Loading;
use numbers::{MAX, MOST_RUNS, ROW_WORDS, Refusal};

// What strict loading refuses: a row that can need more runs than a set may have, and how many it can need.
#[derive(Clone, Copy, Debug, PartialEq, Eq)]
pub struct Excess {
    pub row: u64,
    pub count: u64,
}

// From upper - lower to where the next run begins: a run is an instant longer, and the next is an instant apart.
const APART: u64 = 2;

// The most runs that a set can need at once whose row has this range.
fn needed(lower: u64, upper: u64) -> u64
    requires { range_good lower upper ≡ true }
    ensures { result ≡ strict_needed (range_in lower upper) }
{
    if upper == MAX {
        return 1;
    }
    upper / (upper - lower + APART) + 1
}

// The most that the set of a row can need.
fn needed_in(rows: &[u64], row: usize) -> u64
    requires { (row < length rows.now / ROW_WORDS) × (first_to (row_number rows.now) (length rows.now / ROW_WORDS) ≡ ACCEPTED) }
    ensures { result ≡ needed_in rows.now row }
{
    if !is_temporal(rows, row) {
        return 0;
    }
    needed(lower_in(rows, row), upper_in(rows, row))
}

// The first row that strict loading refuses, of rows that are in order.
fn excess_in(rows: &[u64]) -> Option<Excess>
    requires { first_to (row_number rows.now) (length rows.now / ROW_WORDS) ≡ ACCEPTED }
    ensures { Surplus rows.now result }
{
    for row in 0..rows.len() / ROW_WORDS {
        let count = needed_in(rows, row);
        if count > MOST_RUNS as u64 {
            return Some(Excess {
                row: row as u64,
                count,
            });
        }
    }
    None
}

// The same of an accepted book whose sections stand where places tell: nothing where loading is not strict.
fn excess_at(way: Loading, words: &[u64], places: Places) -> Option<Excess>
    requires { ((loaded words.now).number ≡ ACCEPTED) × Counted words.now places.rows places.operands places.assumes places.guarantees }
    ensures { result ≡ excess_by way (loaded words.now).book.rows }
{
    if !way.is_strict() {
        return None;
    }
    excess_in(rows_part(words, places))
}

// What this way of loading refuses in a book that is in order.
pub fn first_excess(way: Loading, words: &[u64]) -> Option<Excess>
    ensures { result ≡ excess_by way (loaded words.now).book.rows }
{
    let Ok(places) = place(words) else {
        return None;
    };
    excess_at(way, words, places)
}

// Where the sections of a book stand that is accepted as far as its words alone tell in this way of loading, or what it is refused with.
pub fn place_by(way: Loading, words: &[u64]) -> Result<Places, Refusal>
    ensures number { refused_with result ≡ (roomed way (loaded words.now)).number }
    ensures counted { IfOk result (λ p. Counted words.now p.rows p.operands p.assumes p.guarantees) }
{
    let places = place(words)?;
    if excess_at(way, words, places).is_some() {
        return Err(Refusal::CouldRunOut);
    }
    Ok(places)
}
