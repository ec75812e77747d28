// The plan of a step of a call: the rows from 0 upward get their new values in place, and how each set is to change is noted beside the
// monitor. No set changes yet.
#![tactic(auto)]

ghost use Rattle.std.specs.Prelude.{◌≡◌, true, false, cond, not, map, ◌+◌, ◌≤◌, ◌<◌, length, get_or, set, eqb, is_ok, IsOkUnless};
ghost use Rattle.pmtl.specs.Answer.{bit_of};
ghost use Rattle.pmtl.specs.Book.{start, stop, map_row};
ghost use Rattle.pmtl.specs.Monitor.{value_rule};
ghost use Rattle.memory.specs.Layout.{VALUES, SIZE};
ghost use Rattle.memory.specs.Memory.{row_count, begun_word, width_word, kind_at, range_at, row_of, is_one};
ghost use Rattle.memory.specs.Tables.{Founded};
ghost use Rattle.memory.specs.Kept.{BookKept, Sound, Kept};
ghost use Rattle.set_change.specs.Change.{spanned_if, both_of};
ghost use Rattle.planning.specs.Plan.{ahead, atoms_for, spans_in, renew_over, counts_from, held_in, Named, mode_at, row_plan, Unplanned, Leading, turned_to, ModeNoted, RowTried, new_to, visited, unmade_in, IsBit, Bits, Stands, Bounded, Slot, Planned, Timely};
ghost use Rattle.book.specs.Rows.{HISTORICALLY};
ghost use Rattle.numbers.specs.Limits.{LAST_TIME, MOST_ROWS, MOST_TEMPORALS};

use book::kind::Kind;
use memory::{SIZE, VALUES, holds, operand_at, set_at};
use numbers::{MAX, MOST_ROWS, Refusal};
use tables::joined_at;

// What is planned for a temporal row whose set has room: the change of its set, and whether the set will contain the clock.
#[derive(Clone, Copy)]
pub struct RowPlan {
    pub mode: u8,
    pub here: bool,
}

// Whether an atom holds.
fn atom_at(atoms: &[u8], atom: usize) -> bool
    requires { atom < length atoms.now }
    ensures { result ≡ is_one (get_or atoms.now atom 0) }
{
    atoms[atom] == 1
}

// The new value of a row that is not temporal, where those of its operands are new in the table.
fn plain_value<'a>(monitor: &'a [u64; SIZE], atoms: &'a [u8], row: usize) -> bool
    requires book_kept { BookKept monitor.now }
    requires row_bound { (row < row_count monitor.now) × (kind_at monitor.now row < HISTORICALLY) }
    requires named { Named monitor.now atoms.now row }
    ensures { result ≡ value_rule (map is_one atoms.now) false (map_row (held_in monitor.now) (row_of monitor.now row)) }
{
    let words = memory::read_row(monitor, row);
    match words.kind {
        Kind::False => false,
        Kind::True => true,
        Kind::Atom => atom_at(atoms, words.arg),
        Kind::And => joined_at(monitor, VALUES, words.start, words.arg, false),
        Kind::Or => joined_at(monitor, VALUES, words.start, words.arg, true),
        Kind::Not => !holds(monitor, operand_at(monitor, words.start)),
        // Implies: no other kind is left.
        _ => {
            if holds(monitor, operand_at(monitor, words.start)) {
                holds(monitor, operand_at(monitor, words.start + 1))
            } else {
                true
            }
        }
    }
}

// A temporal row's value: Historically holds where nothing in the set says otherwise.
fn temporal_value(kind: u64, here: bool) -> bool
    ensures { result ≡ cond (eqb kind HISTORICALLY) (not here) here }
{
    if kind == Kind::Historically.word() {
        !here
    } else {
        here
    }
}

// How a temporal row's set changes, by the new values of its operands.
fn mode_of(monitor: &[u64; SIZE], row: usize) -> u8
    requires book_kept { BookKept monitor.now }
    requires row_bound { (row < row_count monitor.now) × (HISTORICALLY ≤ kind_at monitor.now row) }
    ensures { result ≡ mode_at monitor.now row }
{
    let start = memory::start_at(monitor, row);
    let first = holds(monitor, operand_at(monitor, start));
    match memory::row_kind(monitor, row) {
        Kind::Historically => set_change::mode(true, !first),
        Kind::Once => set_change::mode(true, first),
        _ => {
            let second = holds(monitor, operand_at(monitor, start + 1));
            set_change::mode(first, second)
        }
    }
}

// The first instant that a change at a clock counts from: where it spans a stretch that after the clock before, which stands in the
// memory until the call is carried out; else the clock itself.
fn counts_from(monitor: &[u64; SIZE], clock: u64, mode: u8) -> u64
    ensures { result ≡ counts_from monitor.now clock mode }
{
    if mode < set_change::STAYS_AND_SPANS {
        return clock;
    }
    let before = memory::clock(monitor);
    if before < clock {
        return before + 1;
    }
    clock
}

// Where a row's range begins, counted from there.
pub fn start_of(monitor: &[u64; SIZE], clock: u64, row: usize, mode: u8) -> u64
    requires { Bounded monitor.now clock row }
    ensures { result ≡ start (range_at monitor.now row) (counts_from monitor.now clock mode) }
{
    counts_from(monitor, clock, mode) + memory::lower_at(monitor, row)
}

// And where it ends, counted from the clock.
pub fn stop_of(monitor: &[u64; SIZE], clock: u64, row: usize) -> u64
    requires { Bounded monitor.now clock row }
    ensures { result ≡ stop (range_at monitor.now row) clock }
{
    let upper = memory::upper_at(monitor, row);
    if upper == MAX {
        return MAX;
    }
    clock + upper
}

// The plan of one temporal row, most of which stay as they are, where the values of the rows below it are new in the table. `before` is
// the change that a step before this one planned in the same call, and STAYS if there is none: the plan is of both.
fn plan_row(
    monitor: &[u64; SIZE],
    clock: u64,
    slot: usize,
    row: usize,
    before: u8,
    spans: bool,
) -> Result<RowPlan, Refusal>
    requires { Slot monitor.now clock slot row }
    ensures { result ≡ row_plan monitor.now clock (spanned_if spans (both_of before (mode_at monitor.now row))) slot }
{
    let mode = set_change::next(before, mode_of(monitor, row), spans);
    let set = set_at(monitor, slot);
    if mode == set_change::STAYS {
        let here = ring::contains(set, clock);
        return Ok(RowPlan { mode, here });
    }
    let start = start_of(monitor, clock, row, mode);
    let stop = stop_of(monitor, clock, row);
    let ahead = set_change::look_ahead(set, mode, start, stop, clock);
    if ahead.room {
        let here = ahead.here;
        return Ok(RowPlan { mode, here });
    }
    Err(Refusal::NoRoom)
}

// Notes a row's new value. Whether it is another than before: only then is it stored, as the opposite of the old one, so that a row above
// that reads it waits for nothing that this one was worked out from.
fn put_value(monitor: &mut [u64; SIZE], row: usize, value: bool) -> bool
    requires { (row < MOST_ROWS) × (length monitor.old ≡ SIZE) × IsBit monitor.old row }
    ensures { (monitor.new ≡ set monitor.old (VALUES + row) (bit_of value)) × (result ≡ turned_to (held_in monitor.old row) value) }
{
    let old = holds(monitor, row);
    if value == old {
        return false;
    }
    monitor[VALUES + row] = u64::from(!old);
    true
}

// Notes how the set of a temporal row is to change, where the values of the rows below it are new in the table; but nothing where the set
// lacks room. The answer is whether the set will contain the clock.
fn note_mode(
    monitor: &[u64; SIZE],
    clock: u64,
    row: usize,
    modes: &mut [u8],
    spans: bool,
) -> Result<bool, Refusal>
    requires timely { Timely monitor.now clock }
    requires row_bound { (row < row_count monitor.now) × (HISTORICALLY ≤ kind_at monitor.now row) × (length modes.old ≡ MOST_TEMPORALS) × Leading monitor.now modes.old spans row }
    ensures { ModeNoted monitor.now spans clock modes.old row modes.new result }
{
    let slot = memory::slot_at(monitor, row);
    let plan = plan_row(monitor, clock, slot, row, modes[slot], spans)?;
    modes[slot] = plan.mode;
    Ok(plan.here)
}

// Tries a row, where the values of the rows below it are new in the table: its own is noted, and if it is temporal its mode; but nothing
// where its set lacks room. The answer is whether its value is another than before. The word of the kind parts the two ways, since
// `Kind::of_word` would test of each row whether it is past the last kind.
fn try_row(
    monitor: &mut [u64; SIZE],
    clock: u64,
    atoms: &[u8],
    row: usize,
    modes: &mut [u8],
    spans: bool,
) -> Result<bool, Refusal>
    requires timely { Timely monitor.old clock }
    requires row_bound { (row < row_count monitor.old) × (length modes.old ≡ MOST_TEMPORALS) × Named monitor.old atoms.now row × Leading monitor.old modes.old spans row }
    requires bit { IsBit monitor.old row }
    ensures { RowTried monitor.old spans clock atoms.now modes.old row monitor.new modes.new result }
{
    let kind = memory::kind_at(monitor, row);
    if kind < Kind::Historically.word() {
        let value = plain_value(monitor, atoms, row);
        return Ok(put_value(monitor, row, value));
    }
    let here = note_mode(monitor, clock, row, modes, spans)?;
    let value = temporal_value(kind, here);
    Ok(put_value(monitor, row, value))
}

// Whether a state says something new to a row: to an atom its byte, to another row that one of those below it was changed. The rows that
// were changed are below `changed`, and those below a row are not below the lowest of them.
fn is_new(monitor: &[u64; SIZE], atoms: &[u8], row: usize, changed: usize) -> bool
    requires { (row < MOST_ROWS) × Named monitor.now atoms.now row }
    ensures { result ≡ new_to monitor.now atoms.now row changed }
{
    match memory::row_kind(monitor, row) {
        Kind::Atom => holds(monitor, row) != atom_at(atoms, memory::arg_at(monitor, row)),
        _ => memory::lowest_at(monitor, row) < changed,
    }
}

// Whether a step looks at a row: one with fresh atoms at those to which it says something new, a time step at those that move with the
// clock. The others keep their values.
fn visits(monitor: &[u64; SIZE], atoms: &[u8], row: usize, fresh: bool, changed: usize) -> bool
    requires { (row < MOST_ROWS) × (fresh ≡ true → Named monitor.now atoms.now row) }
    ensures { result ≡ visited monitor.now atoms.now row fresh changed }
{
    if fresh {
        return is_new(monitor, atoms, row, changed);
    }
    memory::moves_at(monitor, row)
}

// How many rows count as changed from the start: all, where no call was accepted yet, since no step has brought the sets up to this clock.
fn unmade(monitor: &[u64; SIZE]) -> usize
    ensures { result ≡ unmade_in monitor.now }
{
    if memory::begun(monitor) == 1 {
        return 0;
    }
    MOST_ROWS
}

// Whether a step counts the whole stretch since the clock before: if a state lasts. A step with fresh atoms is made at a clock at which
// the old ones were counted already.
fn counts_stretch(monitor: &[u64; SIZE], fresh: bool) -> bool
    ensures { result ≡ spans_in monitor.now fresh }
{
    if fresh {
        false
    } else {
        memory::is_lasting(monitor)
    }
}

// The plan of a step, from row 0 upward, up to the first row whose set lacks room, over the modes that the steps before it left. A step
// with no fresh atoms has no bytes for them. `fresh` stays beside the bytes: what the clause says of either step it says by `fresh`.
pub fn plan_call(
    monitor: &mut [u64; SIZE],
    clock: u64,
    atoms: &[u8],
    fresh: bool,
    modes: &mut [u8],
) -> Result<(), Refusal>
    requires sound { Sound monitor.old × (clock ≤ LAST_TIME) × (fresh ≡ false → Kept monitor.old × Unplanned monitor.old modes.old) }
    requires modes_len { (length modes.old ≡ MOST_TEMPORALS) × (fresh ≡ true → width_word monitor.old ≤ length atoms.now) }
    requires founded { fresh ≡ true → Founded monitor.old × Bits monitor.old × (begun_word monitor.old ≡ 1 → Stands monitor.old clock modes.old) }
    ensures planned { Planned monitor.old (renew_over monitor.old (spans_in monitor.old fresh)) (ahead monitor.old clock modes.old) clock (atoms_for monitor.old fresh atoms.now) monitor.new (is_ok result) modes.new }
    ensures refused { IsOkUnless result Refusal.NoRoom }
{
    let spans = counts_stretch(monitor, fresh);
    let all = unmade(monitor);
    let mut changed = all;
    for row in 0..memory::row_count(monitor) {
        if visits(monitor, atoms, row, fresh, changed) {
            if try_row(monitor, clock, atoms, row, modes, spans)? {
                changed = row + 1 + all;
            }
        }
    }
    Ok(())
}
