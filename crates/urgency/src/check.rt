// The check of who waits for a region: each for an occupied open region of another's, and nobody in a circle.
ghost use Rattle.std.specs.Prelude.{◌≡◌, ◌&&◌, ◌-◌};
ghost use Rattle.rules.specs.Circles.{no_circle};
ghost use Rattle.rules.specs.Checks.{await_right, awaits_fit};

use crate::circles::no_circle;
use crate::waiting::nobody_awaits;
use rules::{OPEN, READY, TASKS};
use tables::{Front, byte_at};

// The number of the region that an entry of `awaits` names; 0 where it names none, and then nobody looks at that region.
fn region_named(entry: u8) -> usize
    ensures { result ≡ entry - 1 }
{
    usize::from(entry.saturating_sub(1))
}

// Task i waits for nothing, or for a region with this mark and this holder. The numbers are compared in 16 bits, since 255 has no entry.
fn await_fits(tasks: u8, i: u8, state: u8, entry: u8, mark: u8, h: u8) -> bool
    ensures { result ≡ await_right tasks i state entry mark h }
{
    let others = (h != 0) & (u16::from(h) != u16::from(i) + 1);
    (entry == 0) | ((i < tasks) & ((state == READY) & ((mark == OPEN) & others)))
}

fn awaits_right(f: &Front) -> bool
    ensures { result ≡ awaits_fit f.now.tasks f.now.state f.now.awaits f.now.opened f.now.holder }
{
    (0..TASKS).fold(true, |ok, i| {
        let r = region_named(f.awaits[i]);
        let mark = byte_at(&f.opened, r);
        let h = byte_at(&f.holder, r);
        ok & await_fits(f.tasks, i as u8, f.state[i], f.awaits[i], mark, h)
    })
}

// Where nobody waits for a region there is nothing to look at.
pub fn waiting_right(f: &Front) -> bool
    ensures { result ≡ (awaits_fit f.now.tasks f.now.state f.now.awaits f.now.opened f.now.holder && no_circle f.now.awaits f.now.holder) }
{
    nobody_awaits(f) || awaits_right(f) && no_circle(f)
}
