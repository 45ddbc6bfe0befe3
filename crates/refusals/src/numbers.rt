// What a call's own numbers tell: that one of them stands for nothing, or that the caller would stop running.
ghost use Rattle.std.specs.Prelude.{◌≡◌};
ghost use Rattle.rules.specs.Commands.{its_call};
ghost use Rattle.rules.specs.Refusals.{missing, leaves};

use rules::{CRITERIA, Command, EVENTS, LARGEST_PRESENT, LONGEST_DELAY, Operation, TIMERS};
use tables::Front;

// 14: a number of the call that stands for nothing. The numbers are compared as they come, 32 bits wide.
#[tactic(auto, unfolding(rules::specs::Refusals::missing))]
pub(crate) fn missing_of(f: &Front, k: Command) -> bool
    ensures { result ≡ missing f.now.tasks f.now.regions f.now.queues (its_call k) }
{
    let tasks = u32::from(f.tasks);
    let regions = u32::from(f.regions);
    let queues = u32::from(f.queues);
    match k.operation {
        Operation::Start | Operation::Stop => k.a >= tasks,
        Operation::Signal => k.a >= EVENTS || k.b >= tasks,
        Operation::Wait | Operation::Clear => !(1..=65535).contains(&k.a),
        Operation::Enter | Operation::Exit => k.a >= regions,
        Operation::Send => k.a >= queues || k.c >= CRITERIA,
        Operation::Retrieve => k.a >= queues || k.c > LARGEST_PRESENT,
        Operation::Arm => k.a >= TIMERS as u32
            || k.b >= EVENTS
            || !(1..=LONGEST_DELAY).contains(&k.c),
        Operation::Disarm => k.a >= TIMERS as u32,
        _ => false,
    }
}

// 16, but for the regions: the calls by which the caller would stop running.
#[tactic(auto, unfolding(rules::specs::Refusals::leaves))]
pub(crate) fn leaves_of(k: Command) -> bool
    ensures { result ≡ leaves (its_call k) }
{
    match k.operation {
        Operation::Stop => k.a == u32::from(k.caller),
        Operation::End | Operation::Wait => true,
        _ => false,
    }
}
