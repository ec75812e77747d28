// A set of instants in a ring of words, for a clock that only goes on: where its oldest run lapses no other run moves.
//
// Word 0 is the number of runs, word 1 the place of the oldest (the lowest). The run at place `p` is words 2 * p + 2 and 2 * p + 3, its
// lower and its upper end, both in the set; the next newer run stands at the next place, and after the last place comes the first. Words
// not in use are 0, so that a set whose oldest run stands at a place has one form only.
#![tactic(auto)]

ghost use Rattle.std.specs.Prelude.{◌≡◌, true, false, [], ◌↔◌, ◌+◌, ◌*◌, ◌-◌, ◌%◌, ◌<◌, ◌≤◌, max, length, get_or};
ghost use Rattle.numbers.specs.Limits.{MOST_RUNS};
ghost use Rattle.numset.specs.Runs.{Covers, SET_WORDS, within, has, lo, hi, kept, union, fits};
ghost use Rattle.numset.specs.Until.{rests_until};
ghost use Rattle.numset.specs.Private.{Cleared, Dropped, oldest_lapsed, takes_in, with_run};
ghost use Rattle.ring.specs.Ring.{RING_WORDS, turn_of, unrolled, ringed, Rolling, rolled, turn_after};
ghost use Rattle.ring.specs.Private.{follows};
ghost use Rattle.ring.specs.Props.{Rolling-prop};

use numbers::{MAX, MOST_RUNS};
use numset::{ADJACENT, SET_WORDS, SortedRuns};

// The place of the oldest run.
const TURN: usize = 1;

// Where the words of the places begin, and how many they are.
const PLACES: usize = 2;

const PLACE_WORDS: usize = 2 * MOST_RUNS;

pub const RING_WORDS: usize = PLACES + PLACE_WORDS;

// Where the words of run `j` begin, counted from the oldest.
fn place(set: &[u64], j: usize) -> usize
    requires { Rolling set.now × (j < MOST_RUNS) }
    ensures { result ≡ 2 + 2 * ((turn_of set.now + j) % MOST_RUNS) }
{
    PLACES + 2 * ((set[TURN] as usize + j) % MOST_RUNS)
}

// A ring, whose runs are read one by one.
#[derive(Clone, Copy)]
struct Ring<'a> {
    set: &'a [u64],
    ghost is: { Rolling set.now } by { Rolling-prop set.now },
}

impl SortedRuns for Ring<'_> {
    ghost words = { λ x. unrolled x.set.now };

    fn count(&self) -> usize {
        self.set[0] as usize
    }

    fn lower_at(&self, j: usize) -> u64 {
        self.set[place(self.set, j)]
    }

    fn upper_at(&self, j: usize) -> u64 {
        self.set[place(self.set, j) + 1]
    }

    fn oldest_upper(&self) -> u64 {
        self.set[PLACES + 1 + 2 * self.set[TURN] as usize]
    }

    fn has_place(&self) -> bool {
        self.set[0] < MOST_RUNS as u64
    }

    ghost good = { λ x. x.is.good };
}

// The lower end of the oldest run, which stands at the turn: no place has to be worked out.
fn oldest_lower(set: &[u64]) -> u64
    requires { Rolling set.now }
    ensures { result ≡ lo (unrolled set.now) 0 }
{
    set[PLACES + 2 * set[TURN] as usize]
}

// How many runs there are.
pub fn count(set: &[u64]) -> u64
    requires { Rolling set.now }
    ensures { result ≡ length (ringed set.now) }
{
    set[0]
}

// The ends of the newest run, where there is one.
pub fn newest_lower(set: &[u64]) -> u64
    requires { Rolling set.now × (0 < get_or set.now 0 0) }
    ensures { result ≡ lo (unrolled set.now) (get_or set.now 0 0 - 1) }
{
    Ring { set }.lower_at(set[0] as usize - 1)
}

pub fn newest_upper(set: &[u64]) -> u64
    requires { Rolling set.now × (0 < get_or set.now 0 0) }
    ensures { result ≡ hi (unrolled set.now) (get_or set.now 0 0 - 1) }
{
    Ring { set }.upper_at(set[0] as usize - 1)
}

// Whether every instant from `from` to MAX is in the set: only the newest run can hold MAX.
pub fn covers(set: &[u64], from: u64) -> bool
    requires { Rolling set.now }
    ensures { (result ≡ true) ↔ Covers from (ringed set.now) }
{
    Ring { set }.covers(from)
}

// Up to when, from `t` on, no run begins or ends, where none ended before `t`: the oldest decides, since every newer one begins later.
pub fn rests_until(set: &[u64], t: u64) -> u64
    requires { Rolling set.now }
    ensures { result ≡ rests_until t (ringed set.now) }
{
    if set[0] == 0 {
        return MAX;
    }
    let lower = oldest_lower(set);
    if t < lower {
        return lower - 1;
    }
    Ring { set }.oldest_upper()
}

// Whether the oldest run ends before `t`. Where it does not, none does.
fn oldest_lapsed(set: &[u64], t: u64) -> bool
    requires { Rolling set.now }
    ensures { result ≡ oldest_lapsed (unrolled set.now) t }
{
    Ring { set }.oldest_lapsed(t)
}

// Whether `t` is in the set, where the oldest run does not end before it: that run decides, since every newer one begins later still.
fn oldest_has(set: &[u64], t: u64) -> bool
    requires rolling { Rolling set.now }
    requires t_value { oldest_lapsed (unrolled set.now) t ≡ false }
    ensures { result ≡ has (ringed set.now) t }
{
    if set[0] == 0 {
        return false;
    }
    oldest_lower(set) <= t
}

// Whether `t` is in the set, where the oldest run ends before it: the first of the others that does not decides.
fn newer_has(set: &[u64], t: u64) -> bool
    requires rolling { Rolling set.now }
    requires t_value { oldest_lapsed (unrolled set.now) t ≡ true }
    ensures { result ≡ has (ringed set.now) t }
{
    let runs = Ring { set };
    for run in 1..runs.count() {
        if t <= runs.upper_at(run) {
            return runs.lower_at(run) <= t;
        }
    }
    false
}

// Whether `t` is in the set, the oldest run first: a clock ends few runs at a time and may have many ahead of it. The first run that does
// not end before `t` decides.
pub fn contains(set: &[u64], t: u64) -> bool
    requires { Rolling set.now }
    ensures { result ≡ has (ringed set.now) t }
{
    if oldest_lapsed(set, t) {
        return newer_has(set, t);
    }
    oldest_has(set, t)
}

// The same set in words that begin with its oldest run.
fn unroll(set: &[u64]) -> [u64; SET_WORDS]
    requires { Rolling set.now }
    ensures { result ≡ unrolled set.now }
{
    let mut flat = [0u64; SET_WORDS];
    for i in 0..PLACE_WORDS {
        flat[1 + i] = set[PLACES + (2 * set[TURN] as usize + i) % PLACE_WORDS];
    }
    flat[0] = set[0];
    flat
}

// Makes a ring hold the set of words that begin with its oldest run. That run's place stays.
fn lay(set: &mut [u64], flat: &[u64; SET_WORDS])
    requires set_len { length set.old ≡ RING_WORDS }
    requires set_bound { (turn_of set.old < MOST_RUNS) × (length flat.now ≡ SET_WORDS) }
    ensures { (unrolled set.new ≡ flat.now) × (turn_of set.new ≡ turn_of set.old) }
{
    for i in 0..PLACE_WORDS {
        let at = PLACES + (2 * set[TURN] as usize + i) % PLACE_WORDS;
        set[at] = flat[1 + i];
    }
    set[0] = flat[0];
}

// Makes `lower ..= upper` run `j`, and `n` the number of runs.
fn store(set: &mut [u64], j: usize, lower: u64, upper: u64, n: usize)
    requires { Rolling set.old × (j < MOST_RUNS) }
    ensures { (unrolled set.new ≡ with_run (unrolled set.old) j lower upper n) × (turn_of set.new ≡ turn_of set.old) }
{
    let at = place(set, j);
    set[at] = lower;
    set[at + 1] = upper;
    set[0] = n as u64;
}

// Whether the set has no run that reaches `lower` or what is next to it from before: there is none, or the newest ends earlier.
fn follows(set: &[u64], lower: u64) -> bool
    requires { Rolling set.now }
    ensures { result ≡ follows (unrolled set.now) lower }
{
    if set[0] == 0 {
        return true;
    }
    // How far it is past that end: no sum, which would wrap at MAX.
    ADJACENT < lower.saturating_sub(newest_upper(set))
}

// Puts a run behind the newest, which there is room for.
fn append(set: &mut [u64], lower: u64, upper: u64)
    requires rolling { Rolling set.old × (lower ≤ upper) × (follows (unrolled set.old) lower ≡ true) }
    requires set_value { fits SET_WORDS (union lower upper (ringed set.old)) ≡ true }
    ensures { set.new ≡ rolled (turn_of set.old) (union lower upper (ringed set.old)) }
{
    let n = set[0] as usize;
    store(set, n, lower, upper, n + 1);
}

// Adds `lower ..= upper` to a set whose newest run takes it in: that run alone may become longer.
fn lengthen(set: &mut [u64], lower: u64, upper: u64)
    requires { Rolling set.old × (lower ≤ upper) × (takes_in (unrolled set.old) lower ≡ true) }
    ensures { set.new ≡ rolled (turn_of set.old) (union lower upper (ringed set.old)) }
{
    let n = set[0] as usize;
    let low = newest_lower(set);
    let high = newest_upper(set);
    store(set, n - 1, low, upper.max(high), n);
}

// Adds `lower ..= upper` wherever it belongs, in words that begin with the oldest run. No clock that only goes on comes here, since what it
// adds begins no earlier than what it added before.
fn put(set: &mut [u64], lower: u64, upper: u64)
    requires rolling { Rolling set.old }
    requires set_value { fits SET_WORDS (union lower upper (ringed set.old)) ≡ true }
    ensures { set.new ≡ rolled (turn_of set.old) (union lower upper (ringed set.old)) }
{
    let mut flat = unroll(set);
    numset::add(&mut flat, lower, upper);
    lay(set, &flat);
}

// Adds `lower ..= upper`, which there is room for. Nearly all that a clock adds follows the newest run or is taken in by it.
pub fn add(set: &mut [u64], lower: u64, upper: u64)
    requires rolling { Rolling set.old }
    requires set_value { fits SET_WORDS (union lower upper (ringed set.old)) ≡ true }
    ensures { set.new ≡ rolled (turn_of set.old) (union lower upper (ringed set.old)) }
{
    if upper < lower {
        return;
    }
    if follows(set, lower) {
        append(set, lower, upper);
        return;
    }
    if newest_lower(set) <= lower {
        lengthen(set, lower, upper);
        return;
    }
    put(set, lower, upper);
}

// Whether there is room to add `lower ..= upper`.
fn has_room(set: &[u64], lower: u64, upper: u64) -> bool
    requires { Rolling set.now }
    ensures { result ≡ fits SET_WORDS (union lower upper (ringed set.now)) }
{
    Ring { set }.has_room(lower, upper)
}

// Whether `t` is one of `lower ..= upper`.
pub fn inside(lower: u64, upper: u64, t: u64) -> bool
    ensures { result ≡ within lower upper t }
{
    lower <= t && t <= upper
}

// What will become of a set: whether it will contain an instant, and whether there is room.
#[derive(Clone, Copy)]
pub struct Outlook {
    pub here: bool,
    pub room: bool,
}

// What will become of the set once the runs that end before `t` are dropped and `lower ..= upper` is added: whether it will contain
// `t`, and whether there is room. A look at the oldest run begins both: one that is dropped makes room, and no run that holds `t` is
// dropped.
pub fn look_ahead(set: &[u64], t: u64, lower: u64, upper: u64) -> Outlook
    requires { Rolling set.now }
    ensures { (result.here ≡ has (union lower upper (kept t (ringed set.now))) t) × (result.room ≡ fits SET_WORDS (union lower upper (kept t (ringed set.now)))) }
{
    let comes = inside(lower, upper, t);
    if oldest_lapsed(set, t) {
        return Outlook {
            here: comes || newer_has(set, t),
            room: true,
        };
    }
    let room = has_room(set, lower, upper);
    Outlook {
        here: comes || oldest_has(set, t),
        room,
    }
}

// Drops the oldest run: its words are wiped, and the next place is that of the oldest.
fn drop_oldest(set: &mut [u64])
    requires { Rolling set.old × (0 < get_or set.old 0 0) }
    ensures { Dropped (unrolled set.old) (unrolled set.new) 1 (get_or set.old 0 0) × (turn_of set.new ≡ (turn_of set.old + 1) % MOST_RUNS) }
{
    let turn = set[TURN] as usize;
    let at = PLACES + 2 * turn;
    set[at] = 0;
    set[at + 1] = 0;
    set[0] -= 1;
    set[TURN] = ((turn + 1) % MOST_RUNS) as u64;
}

// Drops the runs that end before `t`. Where there is none, only the oldest run is looked at.
pub fn drop_before(set: &mut [u64], t: u64)
    requires { Rolling set.old }
    ensures { set.new ≡ rolled (turn_after t set.old) (kept t (ringed set.old)) }
{
    while oldest_lapsed(set, t) {
        drop_oldest(set);
    }
}

// Makes the words of all places 0.
fn wipe(set: &mut [u64])
    requires { length set.old ≡ RING_WORDS }
    ensures { Cleared set.old set.new 2 RING_WORDS }
{
    set[PLACES..].fill(0);
}

// Empties the set. The place of the oldest run stays.
pub fn clear(set: &mut [u64])
    requires { Rolling set.old }
    ensures { set.new ≡ rolled (turn_of set.old) [] }
{
    if set[0] == 0 {
        return;
    }
    wipe(set);
    set[0] = 0;
}
