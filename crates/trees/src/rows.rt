// Rows are built in lent memory, as properties become complete.
ghost use Rattle.std.specs.Prelude.{◌≡◌, [], ◌∷◌, ◌+◌, ◌*◌, ◌≤◌, length};
ghost use Rattle.std.proofs.lemmas.List.Edits.{sets};
ghost use Rattle.numbers.specs.Limits.{ROW_WORDS};
ghost use Rattle.trees.specs.Building.{Emitted, RoomFor};

use numbers::ROW_WORDS;

// The words of a row. The kind is a word too: the reader of rules keeps its open operators in such words, and reads them back as words.
#[derive(Clone, Copy)]
pub struct RowWords {
    pub kind: u64,
    pub arg: u64,
    pub lower: u64,
    pub upper: u64,
}

// Where a row is made: its number; the rows that no other has taken yet, from `base` to `height`, which it takes; and how
// many operands there are before its own.
#[derive(Clone, Copy)]
pub struct Spot {
    pub row: usize,
    pub base: usize,
    pub height: usize,
    pub operands: usize,
}

// Writes a row's words.
pub fn put_row(rows: &mut [u64], row: usize, words: RowWords)
    requires { ROW_WORDS * row + ROW_WORDS ≤ length rows.old }
    ensures { rows.new ≡ sets rows.old (ROW_WORDS * row) (words.kind ∷ words.arg ∷ words.lower ∷ words.upper ∷ []) }
{
    let at = ROW_WORDS * row;
    let said = [words.kind, words.arg, words.lower, words.upper];
    rows[at..at + ROW_WORDS].copy_from_slice(&said);
}

// A row is made of the last rows that no other has taken yet, and then is such a row itself.
pub fn emit(rows: &mut [u64], operands: &mut [u64], tops: &mut [u64], spot: Spot, words: RowWords)
    requires { RoomFor spot (length rows.old) (length operands.old) (length tops.old) }
    ensures { Emitted rows.old operands.old tops.old spot words rows.new operands.new tops.new }
{
    let row = spot.row;
    let base = spot.base;
    put_row(rows, row, words);
    let taken = lists::part_of(tops, base, spot.height - base);
    lists::copy(taken, operands, spot.operands);
    tops[base] = row as u64;
}
