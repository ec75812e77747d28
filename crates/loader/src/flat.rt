// Whether the way of a monitor takes its book, by the table of the rows that move with the clock.
ghost use Rattle.std.specs.Prelude.{◌≡◌, not, ◌<◌};
ghost use Rattle.pmtl.specs.Book.{map_row, moves};
ghost use Rattle.pmtl.specs.Flat.{flat_rule, flat};
ghost use Rattle.book.specs.Loading.{takes};
ghost use Rattle.memory.specs.Memory.{row_count, row_of, rows_of, way_of};
ghost use Rattle.memory.specs.Kept.{Sound};
ghost use Rattle.memory.specs.Tables.{Moving};

use memory::{MOVES, SIZE};

// Whether a temporal row lies below this one, which is temporal, too.
fn is_nested(monitor: &[u64; SIZE], row: usize) -> bool
    requires sound { Sound monitor.now × Moving monitor.now }
    requires row_bound { row < row_count monitor.now }
    ensures { result ≡ not (flat_rule (map_row (moves (rows_of monitor.now)) (row_of monitor.now row))) }
{
    let words = memory::read_row(monitor, row);
    if !words.kind.is_temporal() {
        return false;
    }
    let count = book::check::taken_by(words.kind.word(), words.arg as u64);
    tables::joined_at(monitor, MOVES, words.start, count, true)
}

// Whether no temporal row lies below another.
fn is_flat(monitor: &[u64; SIZE]) -> bool
    requires { Sound monitor.now × Moving monitor.now }
    ensures { result ≡ flat (rows_of monitor.now) }
{
    for row in 0..memory::row_count(monitor) {
        if is_nested(monitor, row) {
            return false;
        }
    }
    true
}

// Whether the monitor's way takes its book.
pub fn is_taken(monitor: &[u64; SIZE]) -> bool
    requires { Sound monitor.now × Moving monitor.now }
    ensures { result ≡ takes (way_of monitor.now) (rows_of monitor.now) }
{
    if memory::is_lasting(monitor) {
        return is_flat(monitor);
    }
    true
}
