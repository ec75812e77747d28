// What a call does to one set: which change, whether the set will then hold the clock and whether there is room for it, and the
// change itself. Whoever plans asks the first two, reading only. Whatever the change, runs that end before the clock that
// the call leaves are dropped first.
#![tactic(auto)]

ghost use Rattle.std.specs.Prelude.{◌≡◌, true};
ghost use Rattle.numset.specs.Runs.{SET_WORDS, has, fits};
ghost use Rattle.ring.specs.Ring.{ringed, Rolling, rolled, turn_after};
ghost use Rattle.set_change.specs.Change.{mode_of, changed, growing, spanned, spanned_if, adding, both_of};

use ring::Outlook;

// The changes: the set stays, or is dropped; the range is added, or is not. To a set that stays the ranges of a stretch of instants
// may be added, as one interval. They are numbers and no enum: `next`, `look_ahead` and `change`, and `start_of` and `plan_call` of
// `planning`, take every u8, from 4 on as 4, and a narrower type would ask more of their callers.
pub const STAYS: u8 = 0;

pub const STAYS_AND_ADDS: u8 = 1;

pub const DROPPED: u8 = 2;

pub const DROPPED_AND_ADDS: u8 = 3;

pub const STAYS_AND_SPANS: u8 = 4;

// The change of a set.
pub fn mode(stays: bool, adds: bool) -> u8
    ensures { result ≡ mode_of stays adds }
{
    if stays {
        if adds { STAYS_AND_ADDS } else { STAYS }
    } else {
        if adds { DROPPED_AND_ADDS } else { DROPPED }
    }
}

// The same change, where a state lasts: what is added to a set that stays counts from every instant of the stretch.
fn spanning(mode: u8) -> u8
    ensures { result ≡ spanned mode }
{
    if mode == STAYS_AND_ADDS {
        return STAYS_AND_SPANS;
    }
    mode
}

// Whether the set stays and something is added.
fn grows(mode: u8) -> bool
    ensures { result ≡ growing mode }
{
    if mode == STAYS_AND_ADDS {
        return true;
    }
    STAYS_AND_SPANS <= mode
}

// A change that adds the range, too.
fn with_range(mode: u8) -> u8
    ensures { result ≡ adding mode }
{
    if mode < DROPPED {
        return STAYS_AND_ADDS;
    }
    if mode < STAYS_AND_SPANS {
        return DROPPED_AND_ADDS;
    }
    STAYS_AND_SPANS
}

// Two changes at one clock, as one: the range is the same, and what the first dropped for its age is gone. So the room after the
// second step, and what the set will then hold, are asked of the set as it is before both.
fn both(first: u8, second: u8) -> u8
    ensures { result ≡ both_of first second }
{
    if second == STAYS {
        return first;
    }
    if grows(second) {
        return with_range(first);
    }
    second
}

// The change that a step makes of a set which the steps before it in the same call are to change as `before` says. Mostly none came
// before, which is seen first. Where it counts a stretch of instants it is the first of its call: no time passes after it.
pub fn next(before: u8, mode: u8, spans: bool) -> u8
    ensures { result ≡ spanned_if spans (both_of before mode) }
{
    if before == STAYS {
        if mode < STAYS_AND_SPANS {
            if spans {
                return spanning(mode);
            }
            return mode;
        }
    }
    let joined = both(before, mode);
    if spans {
        return spanning(joined);
    }
    joined
}

// What will become of the set: whether it will contain the clock, and whether there is room for the change. No run that holds the clock
// is dropped for its age; and only a set that stays can grow past its words. The two changes that drop the set stand together, here and
// below: one look tells them from those by which it grows. `here` is promised where there is no room, too, so no Option says it.
pub fn look_ahead(set: &[u64], mode: u8, lower: u64, upper: u64, clock: u64) -> Outlook
    requires { Rolling set.now }
    ensures { (result.here ≡ has (changed mode lower upper clock (ringed set.now)) clock) × (result.room ≡ fits SET_WORDS (changed mode lower upper clock (ringed set.now))) }
{
    match mode {
        STAYS => {
            let here = ring::contains(set, clock);
            Outlook { here, room: true }
        }
        DROPPED | DROPPED_AND_ADDS => {
            if mode == DROPPED {
                return Outlook {
                    here: false,
                    room: true,
                };
            }
            let here = ring::inside(lower, upper, clock);
            Outlook { here, room: true }
        }
        _ => ring::look_ahead(set, clock, lower, upper),
    }
}

// The change, which there is room for.
pub fn change(set: &mut [u64], mode: u8, lower: u64, upper: u64, clock: u64)
    requires rolling { Rolling set.old }
    requires set_value { fits SET_WORDS (changed mode lower upper clock (ringed set.old)) ≡ true }
    ensures { set.new ≡ rolled (turn_after clock set.old) (changed mode lower upper clock (ringed set.old)) }
{
    ring::drop_before(set, clock);
    match mode {
        STAYS => (),
        DROPPED | DROPPED_AND_ADDS => {
            ring::clear(set);
            if mode == DROPPED {
                return;
            }
            ring::add(set, lower, upper);
        }
        _ => ring::add(set, lower, upper),
    }
}
