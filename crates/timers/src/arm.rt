// What ARM and DISARM make of one timer, and STOP and END of all of them.
ghost use Rattle.std.specs.Prelude.{◌≡◌, map, if◌then◌else◌};
ghost use Rattle.rules.specs.Timers.{idle, is_armed, as_armed, disarmed};
ghost use Rattle.rules.specs.Refusals.{others_at};
ghost use Rattle.timers.specs.Effects.{timer_after, timers_left};

use crate::clock::later_by;
use rules::{Call, Operation, TIMERS, Timer};

const IDLE: Timer = Timer {
    armed: 0,
    owner: 0,
    event: 0,
    date: 0,
};

// A timer of a damaged table may have any byte there.
pub(crate) fn is_armed(r: Timer) -> bool
    ensures { result ≡ is_armed r }
{
    r.armed == 1
}

// What ARM stores, whatever stood there.
fn armed_timer(caller: u8, event: u8, date: u32) -> Timer
    ensures { result ≡ as_armed caller event date idle }
{
    Timer {
        armed: 1,
        owner: caller,
        event: event,
        date: date,
    }
}

// Idle where `over` says so, else as it was.
pub(crate) fn idle_if(over: bool, r: Timer) -> Timer
    ensures { result ≡ (if over then idle else r) }
{
    if over { IDLE } else { r }
}

// What DISARM by the task stores: another's timer stays as it is.
fn disarmed_timer(task: u8, r: Timer) -> Timer
    ensures { result ≡ disarmed task r }
{
    idle_if(is_armed(r) & (r.owner == task), r)
}

// Whether another task than the caller has armed timer i.
pub fn others_at(timers: &[Timer; TIMERS], caller: u8, i: u32) -> bool
    ensures { result ≡ others_at timers.now caller i }
{
    timers
        .get(i as usize)
        .is_some_and(|r| is_armed(*r) & (r.owner != caller))
}

// The timers once the task is stopped. By a loop, since what std promises of an array's `map` leaves the result open.
fn disarmed_all(task: u8, mut timers: [Timer; TIMERS]) -> [Timer; TIMERS]
    ensures { result ≡ map (disarmed task) timers }
{
    for r in &mut timers {
        *r = disarmed_timer(task, *r);
    }
    timers
}

// The timer after ARM or DISARM.
#[tactic(auto, unfolding(crate::specs::Effects::timer_after))]
pub fn timer_after(k: Call, ticks: u32, r: Timer) -> Timer
    ensures { result ≡ timer_after k ticks r }
{
    let date = later_by(ticks, k.c);
    let arms = k.operation == Operation::Arm.number();
    if arms {
        return armed_timer(k.caller, (k.b % 256) as u8, date);
    }
    disarmed_timer(k.caller, r)
}

// All timers after an operation on a task.
pub fn timers_left(operation: u8, task: u8, timers: [Timer; TIMERS]) -> [Timer; TIMERS]
    ensures { result ≡ timers_left operation task timers }
{
    match Operation::try_from(operation) {
        Ok(Operation::Stop | Operation::End) => disarmed_all(task, timers),
        _ => timers,
    }
}
