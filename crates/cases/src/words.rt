// The words of a book, put one after the other.
ghost use Rattle.std.specs.Prelude.{◌≤◌};

use oracle::Kind;

// Room for the books of this program.
const ROOM: usize = 128;

// There is no heap, so that the words stand in an array, and their count beside it.
#[derive(Clone, Copy)]
pub struct Words {
    list: [u64; ROOM],
    count: usize,
    ghost within: { count ≤ 128 },
}

impl Words {
    // A book of so many rows, of which none is there yet.
    pub fn of(rows: u64) -> Self {
        let none = Words {
            list: [0u64; ROOM],
            count: 0,
        };
        none.word(rows)
    }

    pub fn words(&self) -> &[u64] {
        &self.list[..self.count]
    }

    // A word that there is no room for is left out, and the book then refused.
    fn word(mut self, word: u64) -> Self {
        if self.count < ROOM {
            self.list[self.count] = word;
            self.count += 1;
        }
        self
    }

    pub fn row(self, kind: Kind, arg: u64, lower: u64, upper: u64) -> Self {
        self.word(kind.word()).word(arg).word(lower).word(upper)
    }

    // The operands, the assumes or the guarantees, after their count.
    pub fn section(self, list: &[u64]) -> Self {
        let counted = self.word(list.len() as u64);
        list.iter().fold(counted, |words, word| words.word(*word))
    }
}
