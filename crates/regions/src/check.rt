// The check of the regions: marks, the one holder of the closed ones, which is a ready task, the holders of the open ones, and that each
// count fits its region's holder.
ghost use Rattle.std.specs.Prelude.{◌≡◌};
ghost use Rattle.regions.specs.Bits.{or_all};
ghost use Rattle.rules.specs.Urgency.{closed_holders, states_with};
ghost use Rattle.rules.specs.Checks.{region_fits, regions_right, holder_right, open_holder_fits, open_holders_fit, entries_everywhere};
ghost use Rattle.rules.specs.Validity.{entries_fit};
ghost use Rattle.rules.specs.Election.{ready_at};

use crate::holder::closed_entry;
use rules::{OPEN, READY, TASKS};
use tables::Front;

// The bits of the closed regions' entries. Where all occupied ones have the same entry it is this one, and where they have not,
// `regions_right` finds that no entry is all of theirs: so the check needs no walk to the first occupied region.
pub fn closed_bits(f: &Front) -> u8
    ensures { result ≡ or_all 0 (closed_holders f.now.opened f.now.holder) }
{
    f.opened
        .iter()
        .zip(&f.holder)
        .fold(0, |bits, (mark, h)| bits | closed_entry(*mark, *h))
}

#[tactic(auto, unfolding(rules::specs::Checks::region_fits))]
fn region_fits(regions: usize, v: u8, i: usize, mark: u8, h: u8) -> bool
    ensures { result ≡ region_fits regions v i mark h }
{
    ((mark == 0) | ((i < regions) & (mark == OPEN)))
        & ((h == 0) | ((i < regions) & ((mark == OPEN) | (h == v))))
}

// Every marked or occupied region lies below the count, a mark is 0 or 1, and an occupied closed region has the entry v.
pub fn regions_right(f: &Front, v: u8) -> bool
    ensures { result ≡ regions_right f.now.regions v f.now.opened f.now.holder }
{
    let regions = usize::from(f.regions);
    f.opened.iter().zip(&f.holder).enumerate().fold(
        true,
        |ok, (i, (mark, h))| ok & region_fits(regions, v, i, *mark, *h),
    )
}

// The closed regions' holder behind the entry v, if there is one, is a task of the table, ready, and waits for no region.
pub fn holder_right(f: &Front, v: u8) -> bool
    ensures { result ≡ holder_right f.now.tasks (states_with f.now.awaits f.now.state) v }
{
    if v == 0 {
        return true;
    }
    if f.tasks < v {
        return false;
    }
    // Two columns at one place: looked up once.
    let i = (v - 1) as usize;
    if i < TASKS {
        (f.awaits[i] == 0) & (f.state[i] == READY)
    } else {
        false
    }
}

// Task i is stored as ready; past the last there is none.
fn is_ready(f: &Front, i: u8) -> bool
    ensures { result ≡ ready_at f.now.state i }
{
    f.state
        .get(usize::from(i))
        .is_some_and(|state| *state == READY)
}

// The holder of an open region, if there is one, is a task of the table that is stored as ready.
fn open_holder_fits(f: &Front, mark: u8, h: u8) -> bool
    ensures { result ≡ open_holder_fits f.now.tasks f.now.state mark h }
{
    if (mark != OPEN) | (h == 0) {
        return true;
    }
    if f.tasks < h {
        return false;
    }
    is_ready(f, h - 1)
}

pub fn open_holders_right(f: &Front) -> bool
    ensures { result ≡ open_holders_fit f.now.tasks f.now.state f.now.opened f.now.holder }
{
    f.opened
        .iter()
        .zip(&f.holder)
        .fold(true, |ok, (mark, h)| ok & open_holder_fits(f, *mark, *h))
}

// Free and not counted, or held and counted. That a count is at most 255 is in its type.
fn entries_fit(h: u8, n: u8) -> bool
    ensures { result ≡ entries_fit h n }
{
    (h == 0) == (n == 0)
}

// Every region's count fits its holder.
pub fn entries_right(f: &Front) -> bool
    ensures { result ≡ entries_everywhere f.now.holder f.now.entries }
{
    f.holder
        .iter()
        .zip(&f.entries)
        .fold(true, |ok, (h, n)| ok & entries_fit(*h, *n))
}
