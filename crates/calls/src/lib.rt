// The calls of a monitor: planned, then carried out in place, and noted. A call that is refused changes nothing but the number of the
// call.
#![tactic(auto)]

ghost use Rattle.std.specs.Prelude.{◌≡◌, true, ◌≤◌, length, get_or, ltb, Ok};
ghost use borrow.Rule.Slice.PartMut.{put_mid};
ghost use Rattle.numset.specs.Runs.{kept};
ghost use Rattle.ring.specs.Ring.{ringed, rolled, turn_after};
ghost use Rattle.pmtl.specs.Book.{some};
ghost use Rattle.pmtl.specs.Monitor.{fullest};
ghost use Rattle.pmtl.specs.Calls.{Call, time_refusal, state_refusal};
ghost use Rattle.memory.specs.Layout.{SET, SIZE};
ghost use Rattle.memory.specs.Memory.{clock_of, width_word, temporals, set_start, slot_words, rows_of, state_of, atoms_of};
ghost use Rattle.memory.specs.Tables.{Tables};
ghost use Rattle.memory.specs.Kept.{BookKept, Awaited, Kept};
ghost use Rattle.memory.specs.Alike.{Alike, SameLedger};
ghost use Rattle.set_change.specs.Change.{changed};
ghost use Rattle.planning.specs.Plan.{atoms_for, own_renew, set_after};
ghost use Rattle.calls.specs.Private.{QuietAt, ticked, AtomsStand, clocked, Held, Roomy, Fit, Fitting, Written, Atoms, Tried, Greatest, SetsStay, OnlyValues, TriedBoth, Due, Done};
ghost use Rattle.calls.specs.Called.{Called};
ghost use Rattle.numbers.specs.Limits.{LAST_TIME, MOST_ATOMS, MOST_TEMPORALS};
ghost use Rattle.numbers.specs.Refusals.{ACCEPTED, refused_with};

use memory::SIZE;
use numbers::{LAST_TIME, MOST_ATOMS, MOST_TEMPORALS, Refusal, refused_with};
use numset::Tally;
use planning::{plan_call, start_of, stop_of};

// Changes the set of a slot among a monitor's words, by a range's start and stop and the clock. No part can be taken of an array.
fn change_set(words: &mut [u64], slot: usize, mode: u8, start: u64, stop: u64, clock: u64)
    requires { Roomy words.old mode start stop clock slot }
    ensures { words.new ≡ put_mid (set_start slot) SET words.old (rolled (turn_after clock (slot_words words.old slot)) (changed mode start stop clock (ringed (slot_words words.old slot)))) }
{
    let from = memory::SETS + memory::SET * slot;
    let to = from + memory::SET;
    set_change::change(&mut words[from..to], mode, start, stop, clock);
}

// Drops from the set of a slot what ended before the clock: all that is left to do where the set stays and nothing is added.
fn drop_from(words: &mut [u64], slot: usize, clock: u64)
    requires { Held words.old slot }
    ensures { words.new ≡ put_mid (set_start slot) SET words.old (rolled (turn_after clock (slot_words words.old slot)) (kept clock (ringed (slot_words words.old slot)))) }
{
    let from = memory::SETS + memory::SET * slot;
    let to = from + memory::SET;
    ring::drop_before(&mut words[from..to], clock);
}

// Changes one set. One that stays loses what ended before the clock, so no slot is passed over.
fn commit_slot(monitor: &mut [u64; SIZE], clock: u64, slot: usize, mode: u8)
    requires { Fit monitor.old clock mode slot }
    ensures { monitor.new ≡ put_mid (set_start slot) SET monitor.old (rolled (turn_after clock (slot_words monitor.old slot)) (set_after monitor.old clock mode slot)) }
{
    if mode == set_change::STAYS {
        drop_from(monitor, slot, clock);
        return;
    }
    let row = memory::owner_at(monitor, slot);
    let start = start_of(monitor, clock, row, mode);
    let stop = stop_of(monitor, clock, row);
    change_set(monitor, slot, mode, start, stop, clock);
}

// Changes the sets as planned.
fn commit(monitor: &mut [u64; SIZE], clock: u64, modes: &[u8; MOST_TEMPORALS])
    requires { Fitting monitor.old clock modes.now }
    ensures { Written monitor.old clock (λ j. set_after monitor.old clock (get_or modes.now j 0) j) (temporals monitor.old) monitor.new }
{
    for slot in 0..memory::temporal_count(monitor) {
        commit_slot(monitor, clock, slot, modes[slot]);
    }
}

// Sets the clock, and that a call was accepted.
fn put_clock(monitor: &mut [u64; SIZE], clock: u64)
    requires { length monitor.old ≡ SIZE }
    ensures { monitor.new ≡ clocked monitor.old clock }
{
    monitor[memory::BEGUN] = 1;
    monitor[memory::CLOCK] = clock;
}

// Sets the atoms.
fn put_atoms(monitor: &mut [u64; SIZE], atoms: &[u8])
    requires { (length monitor.old ≡ SIZE) × (length atoms.now ≤ MOST_ATOMS) }
    ensures { Atoms monitor.old atoms.now (length atoms.now) monitor.new }
{
    for i in 0..atoms.len() {
        monitor[memory::ATOMS + i] = u64::from(atoms[i]);
    }
}

// The greatest of some bytes, 0 where there is none. There is one way through the loop, so that the compiler takes many at a time.
fn greatest(bytes: &[u8]) -> u8
    ensures { Greatest bytes.now result (length bytes.now) }
{
    let mut most = 0;
    for &byte in bytes {
        most = most.max(byte);
    }
    most
}

// Whether a planned step leaves the sets as they are: no change is planned, and a step at this clock has gone before, so that no run is
// over.
fn leaves_sets(monitor: &[u64; SIZE], fresh: bool, modes: &[u8; MOST_TEMPORALS]) -> bool
    ensures { result ≡ true → SetsStay monitor.now fresh modes.now }
{
    if memory::begun(monitor) != 1 {
        return false;
    }
    if fresh {
        return greatest(modes) == set_change::STAYS;
    }
    false
}

// A call at a clock and atoms: planned, and then carried out, all but the atoms, which a time call leaves as they are. Where a set
// lacks room, the values are worked out anew from what did not change: these are the old ones. Else the answer is whether nothing but
// values of rows was changed.
fn advance(
    monitor: &mut [u64; SIZE],
    clock: u64,
    atoms: &[u8],
    fresh: bool,
) -> Result<bool, Refusal>
    requires kept { Kept monitor.old × (clock ≤ LAST_TIME) }
    requires monitor_in_bounds { fresh ≡ true → (width_word monitor.old ≤ length atoms.now) × (clock ≡ clock_of monitor.old) }
    ensures { Tried monitor.old (own_renew (state_of monitor.old)) (state_of monitor.old) clock (atoms_for monitor.old fresh atoms.now) monitor.new (refused_with result) × (result ≡ Ok true → OnlyValues monitor.old monitor.new) }
{
    let mut modes = [0u8; MOST_TEMPORALS];
    if let Err(full) = plan_call(monitor, clock, atoms, fresh, &mut modes) {
        tables::fill_values(monitor);
        return Err(full);
    }
    if leaves_sets(monitor, fresh, &modes) {
        return Ok(true);
    }
    commit(monitor, clock, &modes);
    put_clock(monitor, clock);
    Ok(false)
}

// A stamped call at a clock and the bytes of its state, planned and carried out, all but the atoms: the time step is planned with the
// atoms that stand there, then the state step over the values and modes that the first left. The sets change once, where both have room.
fn advance_both(monitor: &mut [u64; SIZE], clock: u64, state: &[u8]) -> Result<(), Refusal>
    requires { Kept monitor.old × (clock ≤ LAST_TIME) × (width_word monitor.old ≤ length state.now) }
    ensures { TriedBoth monitor.old clock (atoms_of monitor.old) state.now monitor.new (refused_with result) }
{
    let mut modes = [0u8; MOST_TEMPORALS];
    if let Err(full) = plan_call(monitor, clock, b"", false, &mut modes) {
        tables::fill_values(monitor);
        return Err(full);
    }
    match plan_call(monitor, clock, state, true, &mut modes) {
        Ok(()) => {
            commit(monitor, clock, &modes);
            put_clock(monitor, clock);
            Ok(())
        }
        Err(full) => {
            tables::fill_values(monitor);
            Err(full)
        }
    }
}

// After an accepted call the rows are told anew what is so of their sets. Only the properties above a row that was told something new
// are asked again; at the first such call all are.
fn ask_anew(monitor: &mut [u64; SIZE], first: bool)
    requires { Due monitor.old first }
    ensures { Alike monitor.old monitor.new × Tables monitor.new × SameLedger monitor.old monitor.new }
{
    let news = tables::retell(monitor);
    if first {
        tables::ask_all(monitor);
        return;
    }
    if let Some(told) = news {
        tables::ask(monitor, told);
    }
}

// After an accepted call: the answers, and up to when a time call moves the clock alone.
fn renew(monitor: &mut [u64; SIZE], first: bool)
    requires { Due monitor.old first }
    ensures { Alike monitor.old monitor.new × Tables monitor.new × SameLedger monitor.old monitor.new × Awaited monitor.new }
{
    ask_anew(monitor, first);
    tables::fill_until(monitor);
}

// Whether a byte is neither 0 nor 1: the greatest of them tells.
fn has_other(state: &[u8]) -> bool
    ensures { result ≡ some (ltb 1) state.now }
{
    1 < greatest(state)
}

// Whether a time is one that a call may set, or what is wrong with it.
fn judge_time(monitor: &[u64; SIZE], time: u64) -> Result<(), Refusal>
    ensures { refused_with result ≡ time_refusal (state_of monitor.now).now time }
{
    if time < memory::clock(monitor) {
        return Err(Refusal::TooEarly);
    }
    if LAST_TIME < time {
        return Err(Refusal::TooLate);
    }
    Ok(())
}

// Whether bytes are a state, or what is wrong with them.
fn judge_state(monitor: &[u64; SIZE], state: &[u8]) -> Result<(), Refusal>
    requires { BookKept monitor.now }
    ensures { refused_with result ≡ state_refusal (rows_of monitor.now) state.now }
{
    if MOST_ATOMS < state.len() {
        return Err(Refusal::PastLimit);
    }
    let width = memory::width(monitor);
    if state.len() < width {
        return Err(Refusal::TooNarrow);
    }
    if width < state.len() {
        return Err(Refusal::TooWide);
    }
    if has_other(state) {
        return Err(Refusal::NotABit);
    }
    Ok(())
}

// Whether a call was accepted already and up to this time a time call moves the clock alone.
fn quiet_at(monitor: &[u64; SIZE], time: u64) -> bool
    ensures { result ≡ true → QuietAt monitor.now time }
{
    if memory::begun(monitor) != 1 {
        return false;
    }
    time <= memory::until(monitor)
}

// Moves the clock alone.
fn tick(monitor: &mut [u64; SIZE], time: u64)
    requires { length monitor.old ≡ SIZE }
    ensures { monitor.new ≡ ticked monitor.old time }
{
    monitor[memory::CLOCK] = time;
}

// Whether a call was accepted already and the atoms that stand there are the bytes of a state.
fn stands_with(monitor: &[u64; SIZE], state: &[u8]) -> bool
    requires { length state.now ≤ MOST_ATOMS }
    ensures { result ≡ true → AtomsStand monitor.now state.now }
{
    if memory::begun(monitor) != 1 {
        return false;
    }
    for i in 0..state.len() {
        if memory::word(monitor, memory::ATOMS + i) != u64::from(state[i]) {
            return false;
        }
    }
    true
}

// The clock becomes `time`, and every row is evaluated anew, but up to a time until which nothing else changes. Where the call is
// refused nothing changed.
fn time_call(monitor: &mut [u64; SIZE], time: u64) -> Result<(), Refusal>
    requires { Kept monitor.old }
    ensures { Done (Call.time time) monitor.old monitor.new (refused_with result) }
{
    judge_time(monitor, time)?;
    if quiet_at(monitor, time) {
        tick(monitor, time);
        return Ok(());
    }
    let first = memory::begun(monitor) == 0;
    advance(monitor, time, b"", false)?;
    renew(monitor, first);
    Ok(())
}

// The atoms become the bytes of `state`, which nothing is wrong with, and every row is evaluated anew; but atoms that stand there already
// change nothing. The answer is as that of `time_call`.
fn restate(monitor: &mut [u64; SIZE], state: &[u8]) -> Result<(), Refusal>
    requires { Kept monitor.old × (state_refusal (rows_of monitor.old) state.now ≡ ACCEPTED) }
    ensures { Done (Call.state state.now) monitor.old monitor.new (refused_with result) }
{
    if stands_with(monitor, state) {
        return Ok(());
    }
    let first = memory::begun(monitor) == 0;
    let clock = memory::clock(monitor);
    let same = advance(monitor, clock, state, true)?;
    put_atoms(monitor, state);
    if same {
        return Ok(());
    }
    renew(monitor, first);
    Ok(())
}

// A state call, which may be wrong in itself.
fn state_call(monitor: &mut [u64; SIZE], state: &[u8]) -> Result<(), Refusal>
    requires { Kept monitor.old }
    ensures { Done (Call.state state.now) monitor.old monitor.new (refused_with result) }
{
    judge_state(monitor, state)?;
    restate(monitor, state)
}

// A stamped call whose time moves the clock alone: a state call is left. If that is refused, the clock goes back.
fn tick_and_restate(monitor: &mut [u64; SIZE], time: u64, state: &[u8]) -> Result<(), Refusal>
    requires kept { Kept monitor.old × QuietAt monitor.old time }
    requires time_value { (time_refusal (state_of monitor.old).now time ≡ ACCEPTED) × (state_refusal (rows_of monitor.old) state.now ≡ ACCEPTED) }
    ensures { Done (Call.stamped time state.now) monitor.old monitor.new (refused_with result) }
{
    let clock = memory::clock(monitor);
    tick(monitor, time);
    if let Err(refusal) = restate(monitor, state) {
        tick(monitor, clock);
        return Err(refusal);
    }
    Ok(())
}

// The clock becomes `time`, which nothing is wrong with, and then the atoms the bytes of `state`, nor with these, every row evaluated
// anew at each of the two steps; or neither. Where the first moves the clock alone, only the second is left.
fn restamp(monitor: &mut [u64; SIZE], time: u64, state: &[u8]) -> Result<(), Refusal>
    requires { Kept monitor.old × (time_refusal (state_of monitor.old).now time ≡ ACCEPTED) × (state_refusal (rows_of monitor.old) state.now ≡ ACCEPTED) }
    ensures { Done (Call.stamped time state.now) monitor.old monitor.new (refused_with result) }
{
    if quiet_at(monitor, time) {
        return tick_and_restate(monitor, time, state);
    }
    let first = memory::begun(monitor) == 0;
    advance_both(monitor, time, state)?;
    put_atoms(monitor, state);
    renew(monitor, first);
    Ok(())
}

// A stamped call, whose time or state may be wrong in itself.
fn stamped_call(monitor: &mut [u64; SIZE], time: u64, state: &[u8]) -> Result<(), Refusal>
    requires { Kept monitor.old }
    ensures { Done (Call.stamped time state.now) monitor.old monitor.new (refused_with result) }
{
    judge_time(monitor, time)?;
    judge_state(monitor, state)?;
    restamp(monitor, time, state)
}

// A time call. What came of it, accepted or refused, comes with a count: how many runs the fullest set has, as the monitor is now, which
// is one look. Where the call was refused nothing changed but the number of the call.
pub fn update_time(monitor: &mut [u64; SIZE], time: u64) -> Tally
    requires { Kept monitor.old }
    ensures { Called (Call.time time) monitor.old monitor.new (refused_with result.outcome) × (result.count ≡ fullest (state_of monitor.new)) }
{
    let outcome = time_call(monitor, time);
    notes::note(monitor, refused_with(outcome));
    let count = memory::fullest(monitor);
    Tally { outcome, count }
}

// A state call. What it hands back is as with `update_time`.
pub fn update_state(monitor: &mut [u64; SIZE], state: &[u8]) -> Tally
    requires { Kept monitor.old }
    ensures { Called (Call.state state.now) monitor.old monitor.new (refused_with result.outcome) × (result.count ≡ fullest (state_of monitor.new)) }
{
    let outcome = state_call(monitor, state);
    notes::note(monitor, refused_with(outcome));
    let count = memory::fullest(monitor);
    Tally { outcome, count }
}

// A stamped call: a time call and then a state call, or neither. What it hands back is as with `update_time`, of the monitor after both.
pub fn update_stamped(monitor: &mut [u64; SIZE], time: u64, state: &[u8]) -> Tally
    requires { Kept monitor.old }
    ensures { Called (Call.stamped time state.now) monitor.old monitor.new (refused_with result.outcome) × (result.count ≡ fullest (state_of monitor.new)) }
{
    let outcome = stamped_call(monitor, time, state);
    notes::note(monitor, refused_with(outcome));
    let count = memory::fullest(monitor);
    Tally { outcome, count }
}
