// A set by value, with room for 64 runs. Each function lends the words to the core, and does nothing of its own.
ghost use Rattle.std.specs.Prelude.{◌≡◌, true, [], ◌↔◌, length};
ghost use Rattle.numbers.specs.Refusals.{refused_with};
ghost use Rattle.numset.specs.Runs.{SET_WORDS, Good, Covers, runs, has, kept, union, pack, add_number, add_words, add_count};

use crate::Tally;
use numbers::MOST_RUNS;

// The words of a set with room for the most runs: how many there are, and two for each.
pub const SET_WORDS: usize = 1 + 2 * MOST_RUNS;

#[derive(Clone, Copy)]
pub struct NumSet {
    pub words: [u64; SET_WORDS],
}

// What an addition to a set by value hands back: whether there was room and the count, and the set.
#[derive(Clone, Copy)]
pub struct Added {
    pub tally: Tally,
    pub set: NumSet,
}

impl NumSet {
    pub fn empty() -> Self
        ensures { result.words ≡ pack SET_WORDS [] }
    {
        let words = [0u64; SET_WORDS];
        Self { words }
    }

    // The set of `lower ..= upper`, empty where `lower` is above `upper`.
    pub fn from_interval(lower: u64, upper: u64) -> Self
        ensures { result.words ≡ pack SET_WORDS (union lower upper []) }
    {
        let mut words = [0u64; SET_WORDS];
        // Never refused: so many words have room for one run.
        let _ = crate::set_to(&mut words, lower, upper);
        Self { words }
    }

    pub fn add(self, lower: u64, upper: u64) -> Added
        requires { Good self.words }
        ensures { (refused_with result.tally.outcome ≡ add_number self.words lower upper) × (result.tally.count ≡ add_count self.words lower upper) × (result.set.words ≡ add_words self.words lower upper) }
    {
        let mut words = self.words;
        let tally = crate::add(&mut words, lower, upper);
        let set = Self { words };
        Added { tally, set }
    }

    // The set without the runs that end before `t`.
    pub fn drop_before(self, t: u64) -> Self
        requires { Good self.words }
        ensures { result.words ≡ pack (length self.words) (kept t (runs self.words)) }
    {
        let mut words = self.words;
        crate::drop_before(&mut words, t);
        Self { words }
    }

    pub fn contains(self, t: u64) -> bool
        requires { Good self.words }
        ensures { result ≡ has (runs self.words) t }
    {
        let words = self.words;
        crate::contains(&words, t)
    }

    pub fn covers(self, from: u64) -> bool
        requires { Good self.words }
        ensures { (result ≡ true) ↔ Covers from (runs self.words) }
    {
        let words = self.words;
        crate::covers(&words, from)
    }
}
