// The kinds of a row.
ghost use Rattle.std.specs.Prelude.{◌≡◌};
ghost use Rattle.book.specs.Rows.{temporal};
ghost use Rattle.book.specs.Judging.{arg_good};
ghost use Rattle.book.specs.Kinds.{word_of_kind, kind_of_word, SaysKind};

use numbers::{MOST_ATOMS, MOST_OPERANDS, Refusal};

// Each with the word that says it in a book.
#[derive(Clone, Copy, Debug, PartialEq, Eq)]
pub enum Kind {
    False = 0,
    True = 1,
    Atom = 2,
    And = 3,
    Or = 4,
    Not = 5,
    Implies = 6,
    Historically = 7,
    Once = 8,
    Since = 9,
}

impl Kind {
    // The word that says the kind.
    pub fn word(self) -> u64
        ensures { result ≡ word_of_kind self }
    {
        self as u64
    }

    // The kind that a word says, of the words that a row has: a word past the last kind counts as that.
    pub fn of_word(word: u64) -> Kind
        ensures { result ≡ kind_of_word word }
    {
        Kind::try_from(word).unwrap_or(Kind::Since)
    }

    // Whether a row of this kind has a set.
    pub fn is_temporal(self) -> bool
        ensures { result ≡ temporal (word_of_kind self) }
    {
        matches!(self, Kind::Historically | Kind::Once | Kind::Since)
    }

    // Whether a row of this kind may have this arg: an atom's number, or how many operands it takes.
    #[tactic(auto, unfolding(crate::specs::Judging::arg_good))]
    pub fn takes(self, arg: u64) -> bool
        ensures { result ≡ arg_good (word_of_kind self) arg }
    {
        match self {
            Kind::False | Kind::True => arg == 0,
            Kind::Atom => arg < MOST_ATOMS as u64,
            Kind::And | Kind::Or => arg <= MOST_OPERANDS as u64,
            Kind::Not | Kind::Historically | Kind::Once => arg == 1,
            Kind::Implies | Kind::Since => arg == 2,
        }
    }
}

// The kind that a word says, if it says one.
impl TryFrom<u64> for Kind {
    type Error = Refusal;

    ghost try_from_gives = { SaysKind };

    fn try_from(word: u64) -> Result<Self, Refusal> {
        match word {
            0 => Ok(Kind::False),
            1 => Ok(Kind::True),
            2 => Ok(Kind::Atom),
            3 => Ok(Kind::And),
            4 => Ok(Kind::Or),
            5 => Ok(Kind::Not),
            6 => Ok(Kind::Implies),
            7 => Ok(Kind::Historically),
            8 => Ok(Kind::Once),
            9 => Ok(Kind::Since),
            _ => Err(Refusal::WrongForm),
        }
    }
}
