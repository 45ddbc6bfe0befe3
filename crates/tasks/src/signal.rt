// A signal to one task: the event arrives, and a waiting task whose condition is now met becomes ready.
ghost use Rattle.std.specs.Prelude.{◌≡◌, ◌%◌};
ghost use Rattle.rules.specs.Numbers.{event_end};
ghost use Rattle.rules.specs.Tasks.{signalled};

use crate::condition::met_by;
use rules::{EVENTS, READY, Task, WAITING};

// The event's number is taken modulo EVENTS, so that the shift has a meaning for every number.
pub fn signalled_by(e: u32, r: Task) -> Task
    ensures { result ≡ signalled (e % event_end) r }
{
    let one: u16 = 1;
    let arrived = r.arrived | (one << (e % EVENTS));
    let wakes = (r.state == WAITING) & met_by(r.operator, r.list, arrived);
    if wakes {
        return Task {
            state: READY,
            arrived: arrived, // waking doesn't clear events
            list: 0,
            operator: 0,
        };
    }
    Task {
        arrived: arrived,
        ..r
    }
}
