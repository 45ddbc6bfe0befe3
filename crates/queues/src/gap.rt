// The gap closed that RETRIEVE leaves in the store.
ghost use Rattle.std.specs.Prelude.{◌≡◌};
ghost use Rattle.queues.specs.Gaps.{closed_in};

use rules::STORE;
use tables::Store;

// Closes the gap at `at`: what stands behind it up to `end` moves one down, and the last place gets 0.
#[tactic(auto, using(crate::proofs::Gaps::gap_closed), unfolding(crate::specs::Gaps::closed_in))]
pub fn close_gap(store: &mut Store, at: usize, end: usize)
    ensures elements { store.new.element ≡ closed_in at end store.old.element }
    ensures criteria { store.new.criterion ≡ closed_in at end store.old.criterion }
{
    if at < end && end <= STORE {
        let last = end - 1;
        store.element.copy_within(at + 1..end, at);
        store.element[last] = 0;
        store.criterion.copy_within(at + 1..end, at);
        store.criterion[last] = 0;
    }
}
