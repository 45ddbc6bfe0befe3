// The check of the queues: each bound and length fits, nothing but 0 lies behind a queue, and every criterion is in range.
ghost use Rattle.std.specs.Prelude.{◌<◌, ◌≡◌, get_or};
ghost use Rattle.rules.specs.Numbers.{queue_room};
ghost use Rattle.rules.specs.Checks.{bound_fits, queue_right, queues_right};
ghost use Rattle.rules.specs.Validity.{criteria_in_range};

use crate::behind::zero_behind;
use rules::{CRITERIA, PLACES, QUEUES};
use tables::{Front, Store};

// Below the count a bound is in range, and no queue is longer than its bound; past it both are 0.
#[tactic(auto, unfolding(rules::specs::Checks::bound_fits))]
fn bound_fits(queues: u8, q: usize, bound: u8, n: u8) -> bool
    ensures { result ≡ bound_fits queues q bound n }
{
    if q < (queues as usize) {
        ((0 < bound) & ((bound as usize) <= PLACES)) & (n <= bound)
    } else {
        (bound == 0) & (n == 0)
    }
}

#[tactic(auto, unfolding(rules::specs::Checks::queue_right))]
fn queue_right(f: &Front, store: &Store, q: usize) -> bool
    requires { q < queue_room }
    ensures { result ≡ queue_right f.now.queues q (get_or f.now.bound q 0) (get_or f.now.length q 0) store.now.element store.now.criterion }
{
    let n = f.length[q];
    let fits = bound_fits(f.queues, q, f.bound[q], n);
    let rest = zero_behind(store, q, n);
    fits & rest
}

// Whether every queue is right, those past the count too. By index, since a queue's number says where its places are.
#[tactic(auto, using(rules::proofs::Counts::below_again, rules::proofs::Counts::below_end), unfolding(rules::specs::Words::below, rules::specs::Checks::queues_right))]
pub fn queues_right(f: &Front, store: &Store) -> bool
    ensures { result ≡ queues_right f.now.queues f.now.bound f.now.length store.now.element store.now.criterion }
{
    let mut right = true;
    for q in 0..QUEUES {
        right &= queue_right(f, store, q);
    }
    right
}

// Whether every stored criterion is in range. CRITERIA is a power of two: joined bits reach it only where an entry does.
#[tactic(auto, using(crate::proofs::Scans::criteria_joined))]
pub fn criteria_right(store: &Store) -> bool
    ensures { result ≡ criteria_in_range store.now.criterion }
{
    store.criterion.iter().fold(0, |bits, &c| bits | c) < CRITERIA as u8
}
