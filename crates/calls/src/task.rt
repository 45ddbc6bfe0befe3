// START, STOP, END, SIGNAL, WAIT and CLEAR, once accepted: one task changes. The remainders are for a call that was told a lie.
ghost use Rattle.std.specs.Prelude.{◌<◌};
ghost use Rattle.rules.specs.Numbers.{ENTER};
ghost use Rattle.rules.specs.Commands.{its_call, operation_number};
ghost use Rattle.calls.specs.Steps.{FrontStep};

use crate::afresh::elect_afresh;
use rules::{Answer, Call, Command, Operation, TASKS, Task};
use tables::{Front, FrontDone};
use tasks::{met_by, target_of, task_after};
use timers::timers_left;

// Nobody is elected afresh where the task keeps its state. A task that STOP or END names isn't stopped yet, so that its timers and the line
// that it may stand in need a look only where its state changes.
pub(crate) fn task_call(mut t: Front, k: Command) -> FrontDone
    requires { operation_number k.operation < ENTER }
    ensures { FrontStep t (its_call k) result }
{
    let call = Call::from(k);
    let i = (target_of(call) as usize) % TASKS;
    let r = Task {
        state: t.state[i],
        arrived: t.arrived[i],
        list: t.list[i],
        operator: t.operator[i],
    };
    let met = met_by((k.b % 256) as u8, (k.a % 65536) as u16, r.arrived);
    let after = task_after(call, r);
    let status = u8::from((k.operation == Operation::Wait) & !met);
    t.state[i] = after.state;
    t.arrived[i] = after.arrived;
    t.list[i] = after.list;
    t.operator[i] = after.operator;
    if after.state == r.state {
        return FrontDone {
            front: t,
            answer: Answer::plain(status, t.elected),
        };
    }
    let stops = (k.operation == Operation::Stop) | (k.operation == Operation::End);
    if stops {
        t.awaits[i] = 0;
    }
    t.timers = timers_left(call.operation, i as u8, t.timers);
    let answer = elect_afresh(&mut t, status);
    FrontDone { front: t, answer }
}
