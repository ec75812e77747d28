// The tables of a monitor's memory, worked out from the book, the clock, the atoms and the sets.
#![tactic(auto)]

ghost use Rattle.std.specs.Prelude.{◌≡◌, cond, ◌&&◌, map, ◌+◌, ◌≤◌, ◌<◌, min, max, length, leb, ltb};
ghost use Rattle.ring.specs.Ring.{ringed, Rolling};
ghost use Rattle.pmtl.specs.Sets.{gone};
ghost use Rattle.numbers.specs.Limits.{MAX, LAST_TIME, MOST_ROWS};
ghost use Rattle.pmtl.specs.Book.{map_row, move_rule, least_of, lowest_rule};
ghost use Rattle.pmtl.specs.Quiet.{quiet_until};
ghost use Rattle.memory.specs.Layout.{MOVES, LOWEST, SIZE};
ghost use Rattle.memory.specs.Memory.{row_count, begun_word, temporals, operands_from, row_of, rows_of, state_of, is_one, lowest_at};
ghost use Rattle.memory.specs.Tables.{standing, Founded, Unused, Tables};
ghost use Rattle.memory.specs.Words.{word_of_standing};
ghost use Rattle.memory.specs.Kept.{BookKept, Span, Sound, Awaited};
ghost use Rattle.memory.specs.Alike.{Alike, SameLedger};
ghost use Rattle.row_answers.specs.Told.{settled_told};
ghost use Rattle.row_answers.specs.Private.{joined};
ghost use Rattle.tables.specs.Puts.{bit_in, word_in, moves_put, lowest_put, values_put, told_put, count_put, news_told, early_renewed, settled_renewed, early_put, settled_put, until_of, until_at, until_put};

use memory::{EARLY, FULLEST, LOWEST, MOVES, SETTLED, SIZE, Standing, TOLD, UNTIL, VALUES};
use numbers::{MAX, MOST_ROWS};
use pmtl::Answer;

// And, which stops at a false, or Or, which stops at a true, of what a table has of `left` operands from `place` on.
pub fn joined_at(monitor: &[u64; SIZE], table: usize, place: usize, left: usize, stop: bool) -> bool
    requires book_kept { BookKept monitor.now × (table + MOST_ROWS ≤ SIZE) }
    requires span { Span monitor.now (row_count monitor.now) place left }
    ensures { result ≡ joined stop (map (bit_in monitor.now table) (operands_from monitor.now place left)) }
{
    for i in 0..left {
        if (memory::word(monitor, table + memory::operand_at(monitor, place + i)) == 1) == stop {
            return stop;
        }
    }
    !stop
}

// Whether a row moves with the clock, where it is known of its operands.
fn moves_here(monitor: &[u64; SIZE], row: usize) -> bool
    requires sound { Sound monitor.now }
    requires row_bound { row < row_count monitor.now }
    ensures { result ≡ move_rule (map_row (bit_in monitor.now MOVES) (row_of monitor.now row)) }
{
    let words = memory::read_row(monitor, row);
    if words.kind.is_temporal() {
        return true;
    }
    let count = book::check::taken_by(words.kind.word(), words.arg as u64);
    joined_at(monitor, MOVES, words.start, count, true)
}

// Of each row, from row 0 upward, whether it moves with the clock. This, `fill_lowest` and `fill_values` stay three: one fill that takes a
// closure would keep all three for their contracts, and be a fourth with a contract over calls.
fn fill_moves(monitor: &mut [u64; SIZE])
    requires { Sound monitor.old }
    ensures { monitor.new ≡ moves_put monitor.old }
{
    for row in 0..memory::row_count(monitor) {
        let moves = moves_here(monitor, row);
        monitor[MOVES + row] = u64::from(moves);
    }
}

// The least of a number and of the lowest rows below `left` operands from `place` on.
fn least_of(monitor: &[u64; SIZE], place: usize, left: usize, from: u64) -> u64
    requires { BookKept monitor.now × Span monitor.now (row_count monitor.now) place left }
    ensures { result ≡ least_of from (map (word_in monitor.now LOWEST) (operands_from monitor.now place left)) }
{
    let mut least = from;
    for at in place..place + left {
        least = least.min(memory::word(monitor, LOWEST + memory::operand_at(monitor, at)));
    }
    least
}

// The lowest row at or below a row, where it is known of its operands.
fn lowest_here(monitor: &[u64; SIZE], row: usize) -> u64
    requires sound { Sound monitor.now }
    requires row_bound { row < row_count monitor.now }
    ensures { result ≡ lowest_rule row (map_row (word_in monitor.now LOWEST) (row_of monitor.now row)) }
{
    let words = memory::read_row(monitor, row);
    let count = book::check::taken_by(words.kind.word(), words.arg as u64);
    least_of(monitor, words.start, count, row as u64)
}

// Of each row, from row 0 upward, the lowest row at or below it.
fn fill_lowest(monitor: &mut [u64; SIZE])
    requires { Sound monitor.old }
    ensures { monitor.new ≡ lowest_put monitor.old }
{
    for row in 0..memory::row_count(monitor) {
        let lowest = lowest_here(monitor, row);
        monitor[LOWEST + row] = lowest;
    }
}

// Each row's value, by the walk down from it.
pub fn fill_values(monitor: &mut [u64; SIZE])
    requires { Sound monitor.old }
    ensures { monitor.new ≡ values_put monitor.old }
{
    for row in 0..memory::row_count(monitor) {
        let value = row_answers::output(monitor, row);
        monitor[VALUES + row] = u64::from(value);
    }
}

// Whether a set has no instant at or after the clock: there is no run, or the newest ends before.
fn gone(set: &[u64], clock: u64) -> bool
    requires { Rolling set.now }
    ensures { result ≡ gone clock (ringed set.now) }
{
    ring::count(set) == 0 || ring::newest_upper(set) < clock
}

// What is so of a set.
fn standing(set: &[u64], clock: u64) -> Standing
    requires { Rolling set.now }
    ensures { word_of_standing result ≡ standing clock (ringed set.now) }
{
    if ring::covers(set, clock) {
        return Standing::Covers;
    }
    if gone(set, clock) {
        return Standing::Gone;
    }
    Standing::Neither
}

// The rows whose sets are told something new lie from `first` up to `end`.
#[derive(Clone, Copy)]
pub struct News {
    pub first: usize,
    pub end: usize,
}

// Tells the rows anew what is so of their sets, and says between which rows that is something new, if it is for any. The same walk finds
// how many runs the fullest set has.
pub fn retell(monitor: &mut [u64; SIZE]) -> Option<News>
    requires { Sound monitor.old }
    ensures { (monitor.new ≡ count_put (told_put monitor.old)) × (result ≡ news_told monitor.old (temporals monitor.old)) }
{
    let clock = memory::clock(monitor);
    let count = memory::temporal_count(monitor);
    let mut first = MOST_ROWS;
    let mut end = 0;
    let mut most = 0;
    for slot in 0..count {
        let set = memory::set_at(monitor, slot);
        let new = standing(set, clock).word();
        most = most.max(ring::count(set));
        if memory::told_at(monitor, slot) != new {
            let row = memory::owner_at(monitor, slot);
            monitor[TOLD + slot] = new;
            first = first.min(row);
            end = row + 1;
        }
    }
    monitor[FULLEST] = most;
    if end == 0 {
        return None;
    }
    Some(News { first, end })
}

// Whether a row may lie above one that was told something new: it is none before them, and the lowest row below it is none after them.
fn reached(monitor: &[u64; SIZE], row: usize, news: News) -> bool
    requires { row < MOST_ROWS }
    ensures { result ≡ (leb news.first row && ltb (lowest_at monitor.now row) news.end) }
{
    news.first <= row && memory::lowest_at(monitor, row) < news.end
}

// A row's settled answer: open before the first accepted call.
fn settled_now(monitor: &[u64; SIZE], row: usize) -> Answer
    requires book_kept { BookKept monitor.now }
    requires row_bound { row < row_count monitor.now }
    ensures { result ≡ cond (is_one (begun_word monitor.now)) (settled_told monitor.now row) Answer.Open }
{
    if memory::begun(monitor) == 1 {
        return row_answers::settled(monitor, row);
    }
    Answer::Open
}

// The digits of the properties above the rows that were told something new, by what the rows were told. The others keep theirs.
pub fn ask(monitor: &mut [u64; SIZE], news: News)
    requires { Sound monitor.old }
    ensures { monitor.new ≡ settled_renewed (early_renewed monitor.old news.first news.end) news.first news.end }
{
    for i in 0..memory::property_count(monitor) {
        let row = memory::property_row(monitor, i);
        if reached(monitor, row, news) {
            let early = row_answers::valuation(monitor, row);
            let settled = settled_now(monitor, row);
            monitor[EARLY + i] = u64::from(early.digit());
            monitor[SETTLED + i] = u64::from(settled.digit());
        }
    }
}

// The digits of every property.
pub fn ask_all(monitor: &mut [u64; SIZE])
    requires { Sound monitor.old × Founded monitor.old }
    ensures { monitor.new ≡ settled_put (early_put monitor.old) }
{
    ask(
        monitor,
        News {
            first: 0,
            end: MOST_ROWS,
        },
    );
}

// Up to when a set stays as it is, and the clock meets the same of it, by the range that its row adds and its newest run.
fn until_of(set: &[u64], clock: u64, lower: u64, upper: u64) -> u64
    requires rolling { Rolling set.now × (clock ≤ LAST_TIME) × (lower ≤ LAST_TIME) }
    requires upper_bound { (upper ≡ MAX → ⊥) → upper ≤ LAST_TIME }
    ensures { result ≡ until_of clock lower upper (ringed set.now) }
{
    if ring::count(set) == 0 {
        return MAX;
    }
    if upper == MAX {
        if ring::newest_lower(set) < clock + lower {
            return ring::rests_until(set, clock);
        }
        return clock;
    }
    if ring::newest_upper(set) < clock + upper {
        return ring::rests_until(set, clock);
    }
    clock
}

// The same of the set of a slot.
fn until_at(monitor: &[u64; SIZE], slot: usize) -> u64
    requires { Sound monitor.now × (slot < temporals monitor.now) }
    ensures { result ≡ until_at monitor.now slot }
{
    let row = memory::owner_at(monitor, slot);
    let clock = memory::clock(monitor);
    let lower = memory::lower_at(monitor, row);
    let upper = memory::upper_at(monitor, row);
    until_of(memory::set_at(monitor, slot), clock, lower, upper)
}

// Up to when a time call moves the clock alone: what changes first decides. No set changes before the clock, so the first that may
// change after it ends the look.
fn least_until(monitor: &[u64; SIZE]) -> u64
    requires { Sound monitor.now }
    ensures { result ≡ quiet_until (rows_of monitor.now) (state_of monitor.now) }
{
    let clock = memory::clock(monitor);
    let count = memory::temporal_count(monitor);
    let mut least = MAX;
    for slot in 0..count {
        least = least.min(until_at(monitor, slot));
        if least <= clock {
            return clock;
        }
    }
    least
}

// Notes it.
pub fn fill_until(monitor: &mut [u64; SIZE])
    requires { Sound monitor.old }
    ensures { monitor.new ≡ until_put monitor.old }
{
    let until = least_until(monitor);
    monitor[UNTIL] = until;
}

// All tables of a memory whose unused words are 0, and up to when a time call moves the clock alone.
pub fn work_out(monitor: &mut [u64; SIZE])
    requires { Sound monitor.old × Unused monitor.old }
    ensures { Alike monitor.old monitor.new × Tables monitor.new × SameLedger monitor.old monitor.new × Awaited monitor.new }
{
    fill_moves(monitor);
    fill_lowest(monitor);
    fill_values(monitor);
    retell(monitor);
    ask_all(monitor);
    fill_until(monitor);
}
