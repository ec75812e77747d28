// Limits and refusals, once for all crates. The definitions (specs/) have the same names.
#![tactic(auto)]

ghost use Rattle.std.specs.Prelude.{◌≡◌};
ghost use Rattle.numbers.specs.Refusals.{number_of, refused_with};

// The largest number of 64 bits: the last instant, and an upper bound that means none.
pub const MAX: u64 = 0xffff_ffff_ffff_ffff;

// The last time that a call may set, the largest lower and the largest finite upper: no sum of two of them reaches MAX.
pub const LAST_TIME: u64 = 0x7fff_ffff_ffff_ffff;

// The most rows of a book, and the most operands of all its rows together.
pub const MOST_ROWS: usize = 128;

pub const MOST_OPERANDS: usize = 128;

// The most assumes, the most guarantees, and the most properties, which are both.
pub const MOST_ASSUMES: usize = 16;

pub const MOST_GUARANTEES: usize = 16;

pub const MOST_PROPERTIES: usize = MOST_ASSUMES + MOST_GUARANTEES;

// The most temporal rows, each of which has a set, and the most runs of a set.
pub const MOST_TEMPORALS: usize = 32;

pub const MOST_RUNS: usize = 64;

// The most atoms of a state.
pub const MOST_ATOMS: usize = 256;

// The words of a row in a book: kind, arg, lower, upper.
pub const ROW_WORDS: usize = 4;

// The most kits of a desk.
pub const MOST_KITS: usize = 16;

// The most bytes of an input.
pub const LONGEST_INPUT: usize = 65536;

// Room for every report: the crate `slip` proves that none is longer.
pub const LONGEST_REPORT: usize = 2300000;

// The number of an outcome in which nothing is wrong.
pub const ACCEPTED: u64 = 0;

// Why a book, a call, a text or a step is refused; each with its number in what is handed over.
#[derive(Clone, Copy, Debug, PartialEq, Eq)]
pub enum Refusal {
    // Words end early, or are left over.
    WrongLength = 1,
    // A count, a state's width or the temporal rows pass a limit; an input is too long.
    PastLimit = 2,
    // A row's kind, its arg, or a bound where the kind has none.
    WrongForm = 3,
    // A row's range.
    WrongRange = 4,
    // An operand or a property.
    WrongLink = 5,
    // A row used never or twice.
    WrongUse = 6,
    // A time below the clock.
    TooEarly = 7,
    // A time above the last.
    TooLate = 8,
    // A state shorter than the largest atom plus 1.
    TooNarrow = 9,
    // A byte of a state other than 0 and 1.
    NotABit = 10,
    // A set would have more runs than there is room for.
    NoRoom = 11,
    // A list for the answers shorter than the properties.
    ListTooShort = 12,
    // A bad word in text, or a call of no kind.
    BadWord = 13,
    // A range of which a set could need more runs than there is room for: refused where a book is loaded strictly.
    CouldRunOut = 15,
    // A state longer than the largest atom plus 1.
    TooWide = 16,
    // A temporal row that lies below another: refused where a book is loaded in the lasting way.
    Nested = 17,
    // A desk of no kit or of too many, or a barcode given twice.
    WrongKits = 18,
    // A window of a kit above the last time.
    WindowTooLong = 19,
    // A barcode that no kit of the desk has.
    UnknownBarcode = 20,
    // A step of tidying that does not fit.
    DoesNotFit = 21,
}

impl Refusal {
    pub fn number(self) -> u64
        ensures { result ≡ number_of self }
    {
        self as u64
    }
}

// What is handed over of an outcome: 0 where nothing is wrong, else the refusal's number.
pub fn refused_with<T: Copy>(outcome: Result<T, Refusal>) -> u64
    ensures { result ≡ refused_with outcome }
{
    match outcome {
        Ok(_) => ACCEPTED,
        Err(refusal) => refusal.number(),
    }
}
