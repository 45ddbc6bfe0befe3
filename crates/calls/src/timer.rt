// ARM and DISARM, which change one timer, and TICK, once accepted: all due timers signal, and then one election. The remainder is for a
// call that was told a lie.
ghost use Rattle.std.specs.Prelude.{◌<◌, ◌≤◌};
ghost use Rattle.rules.specs.Numbers.{ARM, TICK};
ghost use Rattle.rules.specs.Commands.{its_call, operation_number};
ghost use Rattle.calls.specs.Steps.{FrontStep, TickStep};

use crate::afresh::elect_afresh;
use rules::{Answer, Call, Command, TIMERS};
use tables::{Front, FrontDone};
use timers::{tick, timer_after};

pub(crate) fn timer_call(mut t: Front, k: Command) -> FrontDone
    requires from_arm { ARM ≤ operation_number k.operation }
    requires before_tick { operation_number k.operation < TICK }
    ensures { FrontStep t (its_call k) result }
{
    let at = (k.a as usize) % TIMERS;
    t.timers[at] = timer_after(Call::from(k), t.ticks, t.timers[at]);
    FrontDone {
        front: t,
        answer: Answer::plain(0, t.elected),
    }
}

pub(crate) fn tick_call(mut t: Front) -> FrontDone
    ensures { TickStep t result }
{
    tick(&mut t);
    let answer = elect_afresh(&mut t, 0);
    FrontDone { front: t, answer }
}
