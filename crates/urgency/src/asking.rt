// Urgency by asking: a task asks the open regions that it holds, and a region the tasks that wait for it, with one task less left on the way.
ghost use Rattle.std.specs.Prelude.{◌≡◌, ◌<◌, min};
ghost use Rattle.rules.specs.Numbers.{task_room};
ghost use Rattle.rules.specs.Urgency.{task_urgency, region_urgency};

use crate::stored::{holds_it, names_it};
use election::PRIORITY_END;
use rules::REGIONS;
use tables::Front;

// The smaller of the task's own priority number and the urgencies of the open regions that it holds.
#[cycle(region_urgency_task_urgency)]
pub(crate) fn task_urgency(f: &Front, left: u8, i: usize) -> u8
    requires { i < task_room }
    ensures { result ≡ task_urgency f.now.priority f.now.awaits f.now.opened f.now.holder left i }
{
    let mut least = PRIORITY_END;
    // By number, which the region is asked by too.
    for r in 0..REGIONS {
        if holds_it(f.opened[r], f.holder[r], i) {
            least = region_urgency(f, left, r).min(least);
        }
    }
    u16::from(f.priority[i]).min(least) as u8
}

// The smallest urgency of the tasks that wait for the region; PRIORITY_END where nobody does or no task is left.
#[cycle(region_urgency_task_urgency)]
pub(crate) fn region_urgency(f: &Front, left: u8, r: usize) -> u16
    ensures { result ≡ region_urgency f.now.priority f.now.awaits f.now.opened f.now.holder left r }
{
    let mut least = PRIORITY_END;
    if left == 0 {
        return least;
    }
    for (i, entry) in f.awaits.iter().enumerate() {
        if names_it(*entry, r) {
            let u = task_urgency(f, left - 1, i);
            least = u16::from(u).min(least);
        }
    }
    least
}
