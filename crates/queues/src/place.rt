// What RETRIEVE takes: the place of its element in the flat store.
ghost use Rattle.std.specs.Prelude.{◌≡◌, eqb, position};
ghost use Rattle.rules.specs.Queues.{largest, wanted};
ghost use Rattle.queues.specs.Places.{place_in, unless_end};

use rules::{LARGEST_PRESENT, STORE};

fn largest_of(criteria: &[u8]) -> u8
    ensures { result ≡ largest criteria.now }
{
    criteria.iter().fold(0, |most, &x| most.max(x))
}

// The criterion to look for.
fn wanted_of(criteria: &[u8], c: u32) -> u32
    ensures { result ≡ wanted c criteria.now }
{
    if c == LARGEST_PRESENT {
        u32::from(largest_of(criteria))
    } else {
        c
    }
}

// The first of criterion c. A stored criterion is made as wide as a call's: a call's number is never narrowed, since 256 is not 0.
fn oldest_of(criteria: &[u8], c: u32) -> Option<usize>
    ensures { result ≡ position (λ x. eqb x c) criteria.now }
{
    criteria.iter().position(|&x| u32::from(x) == c)
}

// The place of the oldest element that RETRIEVE with criterion c takes among those at from..to, if one fits.
pub fn place_of(criterion: &[u8; STORE], from: usize, to: usize, c: u32) -> Option<usize>
    ensures { result ≡ unless_end to (place_in from to c criterion.now) }
{
    let criteria = criterion.get(from..to)?;
    let wanted = wanted_of(criteria, c);
    let i = oldest_of(criteria, wanted)?;
    Some(from + i)
}
