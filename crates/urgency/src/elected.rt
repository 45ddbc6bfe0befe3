// The election by urgency: a task that waits for a region is not ready, and urgencies stand in the place of priorities.
ghost use Rattle.std.specs.Prelude.{◌≡◌};
ghost use Rattle.rules.specs.Election.{elected_by, elect_by};
ghost use Rattle.rules.specs.Urgency.{states_with, urgencies};

use crate::column::{are_bytes, urgencies_of};
use crate::waiting::{nobody_awaits, states_of};
use election::{elect, elected_by};
use rules::Elected;
use tables::Front;

// Where nobody waits for a region, by the states and priorities as they are stored.
pub fn elected_now(f: &Front, v: u8) -> u8
    ensures { result ≡ elected_by v (states_with f.now.awaits f.now.state) (urgencies f.now.priority f.now.awaits f.now.opened f.now.holder) }
{
    are_bytes(&f.priority);
    if nobody_awaits(f) {
        return elected_by(v, &f.state, &f.priority);
    }
    let states = states_of(f);
    let urgency = urgencies_of(f);
    elected_by(v, &states, &urgency)
}

// Both answers of an election, by the same two ways, where `former` was elected before it.
pub fn elect_now(f: &Front, former: u8, v: u8) -> Elected
    ensures { result ≡ elect_by former v (states_with f.now.awaits f.now.state) (urgencies f.now.priority f.now.awaits f.now.opened f.now.holder) }
{
    are_bytes(&f.priority);
    if nobody_awaits(f) {
        return elect(former, v, &f.state, &f.priority);
    }
    let states = states_of(f);
    let urgency = urgencies_of(f);
    elect(former, v, &states, &urgency)
}
