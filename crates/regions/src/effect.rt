// What an accepted ENTER or EXIT does to one region.
ghost use Rattle.std.specs.Prelude.{◌≡◌};
ghost use Rattle.rules.specs.Regions.{exited};
ghost use Rattle.regions.specs.Effects.{others_region, region_entered, region_left};

use rules::{NOBODY, Region};

// Another task than the one whose entry is `mine` holds the region: ENTER suspends its caller.
pub fn held_by_other(mine: u8, r: Region) -> bool
    ensures { result ≡ others_region mine r }
{
    !(r.holder == 0) & !(r.holder == mine)
}

// The region after ENTER by the task whose entry is `mine`: counted once more, or as it was where another task holds it.
#[tactic(auto, unfolding(crate::specs::Effects::region_entered))]
pub fn entered(mine: u8, r: Region) -> Region
    ensures { result ≡ region_entered mine r }
{
    if held_by_other(mine, r) {
        return r;
    }
    Region {
        holder: mine,
        entries: r.entries.wrapping_add(1),
    }
}

// One entry less, and free behind the first. A region that is not counted stays as it is.
fn exited(r: Region) -> Region
    ensures { result ≡ exited r }
{
    if r.entries == 1 {
        return Region {
            holder: 0,
            entries: 0,
        };
    }
    if r.entries == 0 {
        return r;
    }
    Region {
        holder: r.holder,
        entries: r.entries - 1,
    }
}

// The region after EXIT: where there is an heir, its own with count 1.
#[tactic(auto, unfolding(crate::specs::Effects::region_left))]
pub fn left_to(heir: u8, r: Region) -> Region
    ensures { result ≡ region_left heir r }
{
    if heir == NOBODY {
        return exited(r);
    }
    Region {
        holder: heir.wrapping_add(1),
        entries: 1,
    }
}
