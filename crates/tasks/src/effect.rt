// What an accepted call does to one task.
ghost use Rattle.std.specs.Prelude.{◌≡◌};
ghost use Rattle.rules.specs.Tasks.{waited, as_cleared};
ghost use Rattle.tasks.specs.Effects.{target, task_after};

use crate::condition::met_by;
use crate::signal::signalled_by;
use rules::{Call, Operation, READY, STOPPED, Task, WAITING};

// Which task the call changes: the one that START, STOP and SIGNAL name, else the caller.
#[tactic(auto, unfolding(crate::specs::Effects::target))]
pub fn target_of(k: Call) -> u32
    ensures { result ≡ target k }
{
    match Operation::try_from(k.operation) {
        Ok(Operation::Start | Operation::Stop) => k.a,
        Ok(Operation::Signal) => k.b,
        _ => u32::from(k.caller),
    }
}

#[tactic(auto, unfolding(rules::specs::Tasks::waited))]
fn waited_by(list: u16, operator: u8, r: Task) -> Task
    ensures { result ≡ waited list operator r }
{
    if met_by(operator, list, r.arrived) {
        return r;
    }
    Task {
        state: WAITING,
        list: list,
        operator: operator,
        ..r
    }
}

fn cleared_by(list: u16, r: Task) -> Task
    ensures { result ≡ as_cleared list r }
{
    Task {
        arrived: r.arrived - (r.arrived & list),
        ..r
    }
}

// A task that waits for nothing and has no event.
fn anew(state: u8) -> Task
    ensures { result ≡ record { state = state; arrived = 0; list = 0; operator = 0 } }
{
    Task {
        state: state,
        arrived: 0,
        list: 0,
        operator: 0,
    }
}

// The task after the call.
#[tactic(auto, unfolding(crate::specs::Effects::task_after))]
pub fn task_after(k: Call, r: Task) -> Task
    ensures { result ≡ task_after k r }
{
    let list = (k.a % 65536) as u16;
    match Operation::try_from(k.operation) {
        Ok(Operation::Start) => anew(READY),
        Ok(Operation::Signal) => signalled_by(k.a, r),
        Ok(Operation::Wait) => waited_by(list, (k.b % 256) as u8, r),
        Ok(Operation::Clear) => cleared_by(list, r),
        _ => anew(STOPPED),
    }
}
