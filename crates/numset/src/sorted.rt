// What the ends of a set's runs tell, wherever the runs stand: one after the other as here, or round a ring (the crate `ring`).
ghost use Rattle.std.specs.Prelude.{ℕ, List, ◌≡◌, true, ◌↔◌, ◌+◌, ◌*◌, ◌<◌, ◌≤◌, length, get_or};
ghost use Rattle.numset.specs.Runs.{Good, Covers, runs, lo, hi, union, fits};
ghost use Rattle.numset.specs.Private.{Ended, Spanned, oldest_lapsed, takes_in};

use numbers::MAX;

// The gap between the ends of two neighbours: runs that are no further apart are one run.
pub const ADJACENT: u64 = 1;

// A set whose runs are read one by one, the oldest (the lowest) first.
pub trait SortedRuns {
    // The same set in words that begin with its oldest run.
    ghost words: { Self → List ℕ };

    // How many runs there are.
    fn count(&self) -> usize
        ensures { result ≡ get_or (words self.now) 0 0 };

    // The lower end of run `j`.
    fn lower_at(&self, j: usize) -> u64
        requires { j < get_or (words self.now) 0 0 }
        ensures { result ≡ lo (words self.now) j };

    // The upper end of run `j`.
    fn upper_at(&self, j: usize) -> u64
        requires { j < get_or (words self.now) 0 0 }
        ensures { result ≡ hi (words self.now) j };

    // The upper end of the oldest run, asked for in each call of a monitor: a ring knows its place.
    fn oldest_upper(&self) -> u64
        requires { 0 < get_or (words self.now) 0 0 }
        ensures { result ≡ hi (words self.now) 0 };

    // Whether there is a place for one run more.
    fn has_place(&self) -> bool
        ensures { (result ≡ true) ↔ (2 * get_or (words self.now) 0 0 + 2 < length (words self.now)) };

    // The runs are in order.
    ghost good: { (x : Self) → Good (words x) };

    // Whether every instant from `from` to MAX is in the set: `contains_unbounded_interval` of the original. Only the newest run can
    // hold MAX.
    final fn covers(&self, from: u64) -> bool
        ensures { (result ≡ true) ↔ Covers from (runs (words self.now)) }
    {
        let n = self.count();
        if n == 0 {
            return false;
        }
        if from < self.lower_at(n - 1) {
            return false;
        }
        self.upper_at(n - 1) == MAX
    }

    // Whether the newest run takes in what begins at `lower`: it begins no later, and ends next to it or further on.
    final fn takes_in(&self, lower: u64) -> bool
        ensures { result ≡ takes_in (words self.now) lower }
    {
        let n = self.count();
        if n == 0 {
            return false;
        }
        if lower < self.lower_at(n - 1) {
            return false;
        }
        lower.saturating_sub(self.upper_at(n - 1)) <= ADJACENT
    }

    // Whether the oldest run ends before `t`. Where it does not, none does.
    final fn oldest_lapsed(&self, t: u64) -> bool
        ensures { result ≡ oldest_lapsed (words self.now) t }
    {
        if self.count() == 0 {
            return false;
        }
        self.oldest_upper() < t
    }

    // Whether there is room to add `lower ..= upper`: only a run that joins no other takes a place.
    final fn has_room(&self, lower: u64, upper: u64) -> bool
        ensures { result ≡ fits (length (words self.now)) (union lower upper (runs (words self.now))) }
    {
        if self.has_place() {
            return true;
        }
        if upper < lower {
            return true;
        }
        if self.takes_in(lower) {
            return true;
        }
        let joined = find_span(self, lower, upper);
        joined.start < joined.end
    }
}

// The runs `start .. end` that an interval joins, and the run that they become with it.
#[derive(Clone, Copy)]
pub(crate) struct Span {
    pub(crate) start: usize,
    pub(crate) end: usize,
    pub(crate) lower: u64,
    pub(crate) upper: u64,
}

// How many runs begin at or before `upper + 1`.
fn end_of<S: SortedRuns>(set: &S, upper: u64) -> usize
    ensures { Ended (S.words set.now) upper result }
{
    let n = set.count();
    for run in (0..n).rev() {
        // How far it is past `upper`: no sum, which would wrap at MAX.
        if set.lower_at(run).saturating_sub(upper) <= ADJACENT {
            return run + 1;
        }
    }
    0
}

// Joins `lower ..= upper` with the runs below `end` that it touches, the newest first.
fn join<S: SortedRuns>(set: &S, end: usize, lower: u64, upper: u64) -> Span
    requires { Ended (S.words set.now) upper end }
    ensures { Spanned (S.words set.now) lower upper result.start result.end result.lower result.upper }
{
    let mut span = Span {
        start: end,
        end,
        lower,
        upper,
    };
    for run in (0..end).rev() {
        let top = set.upper_at(run);
        if ADJACENT < span.lower.saturating_sub(top) {
            return span;
        }
        span = Span {
            start: run,
            end,
            lower: span.lower.min(set.lower_at(run)),
            upper: span.upper.max(top),
        };
    }
    span
}

// The runs that `lower ..= upper` joins. The newest run is looked at first: what follows it, as where intervals come in order, takes no
// search.
pub(crate) fn find_span<S: SortedRuns>(set: &S, lower: u64, upper: u64) -> Span
    requires { lower ≤ upper }
    ensures { Spanned (S.words set.now) lower upper result.start result.end result.lower result.upper }
{
    let n = set.count();
    let behind = Span {
        start: n,
        end: n,
        lower,
        upper,
    };
    if n == 0 {
        return behind;
    }
    if ADJACENT < lower.saturating_sub(set.upper_at(n - 1)) {
        return behind;
    }
    join(set, end_of(set, upper), lower, upper)
}
