// What lies behind a queue: whether it is all 0.
ghost use Rattle.std.specs.Prelude.{◌<◌, ◌≤◌, ◌≡◌, ◌&&◌};
ghost use Rattle.rules.specs.Numbers.{queue_room, store_size};
ghost use Rattle.rules.specs.Words.{is_zero, every};
ghost use Rattle.rules.specs.Queues.{behind};
ghost use Rattle.queues.specs.Zeros.{zero_part};

use rules::PLACES;
use tables::Store;

// Whether the elements and criteria at from..to are all 0. There is no branch: the bits of all entries are joined in one number, and one test
// of that number answers for all of them, so that a part of known length compiles to packed instructions.
#[tactic(auto, using(crate::proofs::Scans::both_zero))]
fn part_zero(store: &Store, from: usize, to: usize) -> bool
    requires order { from ≤ to }
    requires within { to ≤ store_size }
    ensures { result ≡ zero_part store.now.element store.now.criterion from to }
{
    let elements = store.element[from..to].iter().fold(0, |bits, &e| bits | e);
    let criteria = store.criterion[from..to]
        .iter()
        .fold(0, |bits, &c| bits | c);
    (elements == 0) & (criteria == 0)
}

// A fourth of a queue's places.
const STRETCH: usize = 16;

// Whether a queue's places behind its n elements are all 0. Four stretches cover them, and may overlap: their length is known beforehand, so
// that they compile to a row of packed instructions without a loop. Only fewer places than a stretch are scanned place by place.
pub(crate) fn zero_behind(store: &Store, q: usize, n: u8) -> bool
    requires { q < queue_room }
    ensures { result ≡ (every is_zero (behind q n store.now.element) && every is_zero (behind q n store.now.criterion)) }
{
    let start = q * PLACES;
    let first = start + (n as usize);
    let last = start + 3 * STRETCH;
    let end = start + PLACES;
    if last < first {
        return part_zero(store, first.min(end), end);
    }
    let second = first.max(start + STRETCH);
    let third = first.max(start + 2 * STRETCH);
    let a = part_zero(store, first, first + STRETCH);
    let b = part_zero(store, second, second + STRETCH);
    let c = part_zero(store, third, third + STRETCH);
    let d = part_zero(store, last, end);
    a & (b & (c & d))
}
