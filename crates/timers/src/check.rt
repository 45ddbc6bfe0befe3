// The check of the timers: an armed one is a task's that isn't stopped and has its date ahead; an idle one is all 0.
ghost use Rattle.std.specs.Prelude.{◌≡◌, ◌%◌, min, slice_index};
ghost use Rattle.timers.specs.Fits.{timer_fits};
ghost use Rattle.rules.specs.Numbers.{task_room};
ghost use Rattle.rules.specs.Validity.{timers_right};

use crate::clock::ahead_of;
use rules::{EVENTS, LONGEST_DELAY, STOPPED, TASKS, Timer};
use tables::Front;

// One timer, where `state` is what `state_at` has read for its owner. Every test has a way out: an idle timer is done after its
// four zeros, and which timers are armed changes too seldom for a processor to guess it wrong.
#[tactic(auto, using(crate::proofs::Fits::not_armed, crate::proofs::Fits::no_owner, crate::proofs::Fits::owner_stopped, crate::proofs::Fits::no_event, crate::proofs::Fits::dated))]
fn timer_fits(owners: u8, ticks: u32, r: Timer, state: u8) -> bool
    ensures { result ≡ timer_fits owners state ticks r }
{
    if r.armed != 1 {
        return (r.armed == 0) & ((r.owner == 0) & ((r.event == 0) & (r.date == 0)));
    }
    if owners <= r.owner {
        return false;
    }
    if state == STOPPED {
        return false;
    }
    if EVENTS <= (r.event as u32) {
        return false;
    }
    let left = ahead_of(r.date, ticks);
    (0 < left) & (left <= LONGEST_DELAY)
}

// An owner lies below the count and within the columns.
fn owners_of(tasks: u8) -> u8
    ensures { result ≡ min tasks task_room }
{
    tasks.min(TASKS as u8)
}

// The state at an owner's number modulo TASKS, so that every number has one.
fn state_at(owner: u8, state: &[u8; TASKS]) -> u8
    ensures { result ≡ slice_index state.now (owner % task_room) }
{
    state[(owner as usize) % TASKS]
}

pub fn timers_right(f: &Front) -> bool
    ensures { result ≡ timers_right f.now.tasks f.now.state f.now.ticks f.now.timers }
{
    let owners = owners_of(f.tasks);
    for r in &f.timers {
        let its = state_at(r.owner, &f.state);
        if !timer_fits(owners, f.ticks, *r, its) {
            return false;
        }
    }
    true
}
