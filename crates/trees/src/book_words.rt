// The words of a book, put together from the memory in which its rows were built.
ghost use Rattle.std.specs.Prelude.{◌≡◌, ◌∷◌, ◌+◌, ◌≤◌, length, take};
ghost use Rattle.trees.specs.Putting.{Joined, Lined, SectionsPut};

use book::check::Places;
use numbers::{MOST_ROWS, ROW_WORDS};

// The most words that are built: each row is an operand or a property, and there are four counts.
pub const MOST_WORDS: usize = ROW_WORDS * MOST_ROWS + MOST_ROWS + 4;

// Writes a section after others, its count first, and answers with the place after it.
fn put_section(words: &mut [u64], at: usize, count: usize, part: &[u64]) -> usize
    requires { at + length part.now + 1 ≤ length words.old }
    ensures { (result ≡ at + length part.now + 1) × Joined (take at words.old) (count ∷ part.now) (take result words.new) × (result ≤ length words.new) }
{
    words[at] = count as u64;
    lists::copy(part, words, at + 1);
    at + part.len() + 1
}

// The four sections, of the rows, operands and properties that were built.
pub fn put_sections<'a>(
    words: &mut [u64],
    counts: Places,
    rows: &'a [u64],
    operands: &'a [u64],
    tops: &'a [u64],
) -> usize
    requires { Lined counts (length words.old) (length rows.now) (length operands.now) (length tops.now) }
    ensures { SectionsPut counts rows.now operands.now tops.now words.new result }
{
    let n = counts.rows;
    let o = counts.operands;
    let a = counts.assumes;
    let g = counts.guarantees;
    let e1 = put_section(words, 0, n, lists::part_of(rows, 0, ROW_WORDS * n));
    let e2 = put_section(words, e1, o, lists::part_of(operands, 0, o));
    let e3 = put_section(words, e2, a, lists::part_of(tops, 0, a));
    put_section(words, e3, g, lists::part_of(tops, a, g))
}
