// The heir of a region: of the tasks that wait for it the most urgent, of equals the lowest number.
ghost use Rattle.std.specs.Prelude.{◌≡◌, ◌<◌, cond, eqb};
ghost use Rattle.rules.specs.Numbers.{nobody, task_room};
ghost use Rattle.rules.specs.Tasks.{ready, stopped};
ghost use Rattle.rules.specs.Urgency.{awaiting, task_urgency, line, heir};
ghost use Rattle.urgency.specs.Lines.{line_urgencies};
ghost use Rattle.urgency.specs.Named.{unless_nobody};

use crate::asking::task_urgency;
use crate::stored::names_it;
use crate::waiting::nobody_awaits;
use election::best_ready;
use rules::{NOBODY, READY, STOPPED, TASKS};
use tables::Front;

fn place_of(waits: bool) -> u8
    ensures { result ≡ cond waits ready stopped }
{
    if waits { READY } else { STOPPED }
}

// Who waits for the region, as the election sees who is ready.
fn line_of(f: &Front, r: usize) -> [u8; TASKS]
    ensures { result ≡ line f.now.awaits r }
{
    std::array::from_fn(|i| place_of(names_it(f.awaits[i], r)))
}

// A task's urgency, if it is in line; nobody asks for the others'.
fn urgency_in_line(f: &Front, r: usize, i: usize) -> u8
    requires { i < task_room }
    ensures { result ≡ cond (awaiting f.now.awaits r i) (task_urgency f.now.priority f.now.awaits f.now.opened f.now.holder task_room i) 0 }
{
    if names_it(f.awaits[i], r) {
        task_urgency(f, TASKS as u8, i)
    } else {
        0
    }
}

fn line_urgencies(f: &Front, r: usize) -> [u8; TASKS]
    ensures { result ≡ line_urgencies f.now.priority f.now.awaits f.now.opened f.now.holder r }
{
    std::array::from_fn(|i| urgency_in_line(f, r, i))
}

fn heir_of(f: &Front, r: usize) -> Option<u8>
    ensures { result ≡ unless_nobody (heir f.now.priority f.now.awaits f.now.opened f.now.holder r) }
{
    let waiting = line_of(f, r);
    let urgency = line_urgencies(f, r);
    let first = best_ready(&waiting, &urgency);
    (first != NOBODY).then_some(first)
}

// Who gets the region at an EXIT of one that is counted so often: nobody unless it is the matching one and a task waits.
pub fn heir_at_exit(f: &Front, entries: u8, r: usize) -> Option<u8>
    ensures { result ≡ unless_nobody (cond (eqb entries 1) (heir f.now.priority f.now.awaits f.now.opened f.now.holder r) nobody) }
{
    let goes_on = entries != 1;
    if goes_on || nobody_awaits(f) {
        return None;
    }
    heir_of(f, r)
}
