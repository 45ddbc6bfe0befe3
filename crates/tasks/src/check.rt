// The check of the task columns: every task is right, and past the count it is a stopped one of priority 0, which is all 0.
ghost use Rattle.std.specs.Prelude.{ℕ, ◌≡◌, ◌<◌, ◌&&◌, get_or};
ghost use Rattle.rules.specs.Checks.{row_right, tasks_right};
ghost use Rattle.rules.specs.Numbers.{task_room, priority_end};
ghost use Rattle.rules.specs.Words.{is_zero, past};

use crate::condition::met_by;
use rules::{READY, STOPPED, TASKS, WAITING};
use tables::Front;

// Whatever its priority, which is right by its type. There is no branch, so that the loop over all tasks vectorises.
fn row_fits(state: u8, arrived: u16, list: u16, operator: u8) -> bool
    ensures { (priority : ℕ) → priority < priority_end → result ≡ row_right priority state arrived list operator }
{
    let met = met_by(operator, list, arrived);
    let idle = (list == 0) & (operator == 0);
    let stopped = (state == STOPPED) & (arrived == 0);
    let waiting = (state == WAITING) & ((list != 0) & ((operator < 2) & !met));
    (idle & (stopped | (state == READY))) | waiting
}

// Past the count priority and state are 0. What else is 0 there is so of every stopped task.
fn rest_zero(f: &Front) -> bool
    ensures { result ≡ past f.now.tasks task_room (λ i. is_zero (get_or f.now.priority i 0) && is_zero (get_or f.now.state i 0)) }
{
    // By index from the count on: with `skip` over the two columns it took eight times as long.
    let mut ok = true;
    for i in usize::from(f.tasks)..TASKS {
        ok = ok & ((f.priority[i] == 0) & (f.state[i] == 0));
    }
    ok
}

pub fn tasks_right(f: &Front) -> bool
    ensures { result ≡ tasks_right f.now.tasks f.now.priority f.now.state f.now.arrived f.now.list f.now.operator }
{
    let rest = rest_zero(f);
    // By index: four columns are read at once.
    let mut ok = true;
    for (i, state) in f.state.iter().enumerate() {
        ok = ok & row_fits(*state, f.arrived[i], f.list[i], f.operator[i]);
    }
    ok & rest
}
