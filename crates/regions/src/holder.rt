// Who holds the closed regions, and whether a task holds an open one.
ghost use Rattle.std.specs.Prelude.{◌≡◌, ◌&&◌, if◌then◌else◌};
ghost use Rattle.rules.specs.Words.{names};
ghost use Rattle.rules.specs.Regions.{held};
ghost use Rattle.rules.specs.Urgency.{is_open, closed_holders, holds_open};

use rules::OPEN;
use tables::Front;

// A closed region's entry; an open one counts as free.
pub(crate) fn closed_entry(mark: u8, h: u8) -> u8
    ensures { result ≡ (if is_open mark then 0 else h) }
{
    if mark == OPEN { 0 } else { h }
}

// The first occupied closed region's entry, 0 where all are free.
pub fn closed_held(f: &Front) -> u8
    ensures { result ≡ held (closed_holders f.now.opened f.now.holder) }
{
    f.opened
        .iter()
        .zip(&f.holder)
        .map(|(mark, h)| closed_entry(*mark, *h))
        .find(|h| *h != 0)
        .unwrap_or(0)
}

// A region is open and the task holds it. Compared in 64 bits, since a call's number may have no entry.
fn holds_it(mark: u8, h: u8, task: u32) -> bool
    ensures { result ≡ (is_open mark && names h task) }
{
    (mark == OPEN) & (u64::from(h) == u64::from(task) + 1)
}

// The task holds an open region.
pub fn holds_open(f: &Front, task: u32) -> bool
    ensures { result ≡ holds_open f.now.opened f.now.holder task }
{
    f.opened.iter().zip(&f.holder).fold(false, |holds, (mark, h)| holds | holds_it(*mark, *h, task))
}
