// ENTER and EXIT, once accepted: one region changes, or its caller waits for it, and the elected task is found afresh. The remainders are for
// a call that was told a lie.
ghost use Rattle.std.specs.Prelude.{◌≡◌};
ghost use Rattle.rules.specs.Numbers.{ENTER, EXIT};
ghost use Rattle.rules.specs.Commands.{its_call, operation_number};
ghost use Rattle.calls.specs.Steps.{FrontStep};

use crate::afresh::elect_afresh;
use regions::{entered, held_by_other, left_to};
use rules::{Command, NOBODY, REGIONS, Region, TASKS};
use tables::{Front, FrontDone};
use urgency::heir_at_exit;

// Where another task holds the region the caller waits for it, and the region stays as it is; else the region is the caller's.
pub(crate) fn enter_call(mut t: Front, k: Command) -> FrontDone
    requires { operation_number k.operation ≡ ENTER }
    ensures { FrontStep t (its_call k) result }
{
    let at = (k.a as usize) % REGIONS;
    let who = (k.caller as usize) % TASKS;
    let mine = k.caller.wrapping_add(1);
    let region = Region {
        holder: t.holder[at],
        entries: t.entries[at],
    };
    let waits = held_by_other(mine, region);
    let after = entered(mine, region);
    t.holder[at] = after.holder;
    t.entries[at] = after.entries;
    if waits {
        t.awaits[who] = (at + 1) as u8;
    }
    let answer = elect_afresh(&mut t, u8::from(waits));
    FrontDone { front: t, answer }
}

// Where there is an heir it holds the region now, and waits no more.
pub(crate) fn exit_call(mut t: Front, k: Command) -> FrontDone
    requires { operation_number k.operation ≡ EXIT }
    ensures { FrontStep t (its_call k) result }
{
    let at = (k.a as usize) % REGIONS;
    let region = Region {
        holder: t.holder[at],
        entries: t.entries[at],
    };
    let heir = heir_at_exit(&t, region.entries, at);
    let after = left_to(heir.unwrap_or(NOBODY), region);
    t.holder[at] = after.holder;
    t.entries[at] = after.entries;
    if let Some(task) = heir {
        t.awaits[(task as usize) % TASKS] = 0;
    }
    let answer = elect_afresh(&mut t, 0);
    FrontDone { front: t, answer }
}
