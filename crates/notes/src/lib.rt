// What is noted of a call: its number, and of an accepted one what it left of each property.
#![tactic(auto)]

ghost use Rattle.std.specs.Prelude.{◌≡◌, ◌+◌, ◌≤◌, ◌<◌, length, set};
ghost use Rattle.numbers.specs.Limits.{MOST_PROPERTIES};
ghost use Rattle.ledger.specs.Ledger.{LAST_COUNTED};
ghost use Rattle.memory.specs.Layout.{ENTRY, LEDGER, TAKEN, SIZE};
ghost use Rattle.memory.specs.Memory.{number_word, taken_word, entry_start, entry_of};
ghost use Rattle.memory.specs.Tables.{property_count};
ghost use Rattle.memory.specs.Kept.{Kept};
ghost use Rattle.notes.specs.Noting.{CallNoted};
ghost use Rattle.notes.specs.Private.{with_stretch, first_noted, longest_noted, settled_noted, false_noted, EntryPut, Countable, open_now, noted_in, EntriesNoted};

use memory::{
    ENTRIES, ENTRY, FAILED, FIRST, LAST, LEDGER, LONGEST, SETTLED_CALL, SIZE, STRETCH, TAKEN,
    entry_word,
};
use numbers::{ACCEPTED, LAST_TIME};
use pmtl::Answer;

// Puts a word of a property's entry.
fn put_word(monitor: &mut [u64; SIZE], i: usize, word: usize, value: u64)
    requires { (i < MOST_PROPERTIES) × (word < ENTRY) × (length monitor.old ≡ SIZE) }
    ensures { monitor.new ≡ set monitor.old (entry_start i + word) value }
{
    monitor[ENTRIES + ENTRY * i + word] = value;
}

// The first call that left a property false: this one, where there was none.
fn note_first(monitor: &mut [u64; SIZE], n: u64, i: usize)
    requires { (i < MOST_PROPERTIES) × (length monitor.old ≡ SIZE) }
    ensures { EntryPut monitor.old i (first_noted n (entry_of monitor.old i)) monitor.new }
{
    if entry_word(monitor, i, FIRST) != 0 {
        return;
    }
    put_word(monitor, i, FIRST, n);
}

// The longest stretch: the one that reaches to this call, where no other is longer.
fn note_longest(monitor: &mut [u64; SIZE], stretch: u64, i: usize)
    requires { (i < MOST_PROPERTIES) × (length monitor.old ≡ SIZE) }
    ensures { EntryPut monitor.old i (longest_noted stretch (entry_of monitor.old i)) monitor.new }
{
    if stretch <= entry_word(monitor, i, LONGEST) {
        return;
    }
    put_word(monitor, i, LONGEST, stretch);
}

// A property that call n left false.
fn note_false(monitor: &mut [u64; SIZE], n: u64, i: usize)
    requires { Countable monitor.old i }
    ensures { EntryPut monitor.old i (false_noted n (entry_of monitor.old i)) monitor.new }
{
    let failed = entry_word(monitor, i, FAILED) + 1;
    let stretch = entry_word(monitor, i, STRETCH) + 1;
    put_word(monitor, i, FAILED, failed);
    put_word(monitor, i, LAST, n);
    put_word(monitor, i, STRETCH, stretch);
    note_first(monitor, n, i);
    note_longest(monitor, stretch, i);
}

// A property that the call left true: no stretch reaches to it.
fn note_true(monitor: &mut [u64; SIZE], i: usize)
    requires { (i < MOST_PROPERTIES) × (length monitor.old ≡ SIZE) }
    ensures { EntryPut monitor.old i (with_stretch 0 (entry_of monitor.old i)) monitor.new }
{
    if entry_word(monitor, i, STRETCH) == 0 {
        return;
    }
    put_word(monitor, i, STRETCH, 0);
}

// The call at which a property settled: this one, where it is settled and was not before.
fn note_settled(monitor: &mut [u64; SIZE], n: u64, i: usize)
    requires { (i < MOST_PROPERTIES) × (length monitor.old ≡ SIZE) }
    ensures { EntryPut monitor.old i (settled_noted n (open_now monitor.old i) (entry_of monitor.old i)) monitor.new }
{
    if memory::settled_at(monitor, i) == u64::from(Answer::Open.digit()) {
        return;
    }
    if entry_word(monitor, i, SETTLED_CALL) != 0 {
        return;
    }
    put_word(monitor, i, SETTLED_CALL, n);
}

// A property, as the accepted call n left it.
fn note_property(monitor: &mut [u64; SIZE], n: u64, i: usize)
    requires { Countable monitor.old i }
    ensures { EntryPut monitor.old i (noted_in monitor.old n i) monitor.new }
{
    note_settled(monitor, n, i);
    if memory::holds(monitor, memory::property_row(monitor, i)) {
        note_true(monitor, i);
        return;
    }
    note_false(monitor, n, i);
}

// All properties, as the accepted call n left them.
fn note_entries(monitor: &mut [u64; SIZE], n: u64)
    requires { Kept monitor.old × (number_word monitor.old < LAST_COUNTED) }
    ensures { EntriesNoted monitor.old n (property_count monitor.old) monitor.new }
{
    let count = memory::property_count(monitor);
    for i in 0..count {
        note_property(monitor, n, i);
    }
}

// The number of the last call.
fn put_number(monitor: &mut [u64; SIZE], n: u64)
    requires { length monitor.old ≡ SIZE }
    ensures { monitor.new ≡ set monitor.old LEDGER n }
{
    monitor[LEDGER] = n;
}

// One more accepted call.
fn count_taken(monitor: &mut [u64; SIZE])
    requires { (length monitor.old ≡ SIZE) × (taken_word monitor.old ≤ LAST_COUNTED) }
    ensures { monitor.new ≡ set monitor.old TAKEN (taken_word monitor.old + 1) }
{
    monitor[TAKEN] = memory::taken(monitor) + 1;
}

// Notes a call that handed back `number`, after it was made: a refused one numbers on and changes nothing else. After the last call
// that is counted nothing is noted any more. It takes the number, and any, as it always did: an outcome can say those of refusals alone.
pub fn note(monitor: &mut [u64; SIZE], number: u64)
    requires { Kept monitor.old }
    ensures { CallNoted monitor.old number monitor.new }
{
    let last = memory::last_call(monitor);
    if LAST_TIME <= last {
        return;
    }
    if number != ACCEPTED {
        put_number(monitor, last + 1);
        return;
    }
    note_entries(monitor, last + 1);
    count_taken(monitor);
    put_number(monitor, last + 1);
}
