// The urgencies of all tasks: each task that waits carries its priority number up its own way, to every task that it waits for through a chain.
ghost use Rattle.std.specs.Prelude.{◌≡◌, ℕ, ◌<◌, min, get_or};
ghost use Rattle.rules.specs.Numbers.{task_room, priority_end};
ghost use Rattle.rules.specs.Urgency.{urgencies};
ghost use Rattle.urgency.specs.Carrying.{held_open, carry, carried_by};
ghost use Rattle.urgency.specs.Named.{stored};

use crate::stored::{is_open, named};
use crate::waiting::nobody_awaits;
use rules::{REGIONS, TASKS};
use tables::Front;

// Who holds the open region that an entry of `awaits` names.
#[tactic(auto, unfolding(crate::specs::Carrying::held_open))]
fn held_open(f: &Front, entry: u8) -> Option<u8>
    ensures { stored result ≡ held_open f.now.opened f.now.holder entry }
{
    let r = usize::from(named(entry)?);
    if r >= REGIONS || !is_open(f.opened[r]) {
        return None;
    }
    named(f.holder[r])
}

// Lowers to p the urgency of every task on the way of a task that waits for what `entry` names, where it is larger.
fn carried(f: &Front, p: u8, entry: u8, out: &mut [u8; TASKS])
    ensures { out.new ≡ carry f.now.awaits f.now.opened f.now.holder task_room (held_open f.now.opened f.now.holder entry) p out.old }
{
    let mut next = held_open(f, entry);
    for _ in 0..TASKS {
        let Some(i) = next else { return };
        let task = usize::from(i);
        if task >= TASKS {
            return;
        }
        out[task] = out[task].min(p);
        next = held_open(f, f.awaits[task]);
    }
}

// Each task's way in turn, from the priorities.
fn carried_by_all(f: &Front) -> [u8; TASKS]
    ensures { result ≡ carried_by f.now.priority f.now.awaits f.now.opened f.now.holder task_room }
{
    let mut out = f.priority;
    for (p, entry) in f.priority.iter().zip(&f.awaits) {
        carried(f, *p, *entry, &mut out);
    }
    out
}

// Says what the type says, for callers' proofs: each entry is a byte. Nothing is run.
pub(crate) fn are_bytes(column: &[u8])
    ensures { (i : ℕ) → get_or column.now i 0 < priority_end }
{}

// Where nobody waits for a region, the urgencies are the priorities.
pub(crate) fn urgencies_of(f: &Front) -> [u8; TASKS]
    ensures { result ≡ urgencies f.now.priority f.now.awaits f.now.opened f.now.holder }
{
    are_bytes(&f.priority);
    if nobody_awaits(f) {
        return f.priority;
    }
    carried_by_all(f)
}
