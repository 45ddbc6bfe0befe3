// Who waits for a region: whether anybody does, and the states of all tasks with theirs among them.
ghost use Rattle.std.specs.Prelude.{◌≡◌};
ghost use Rattle.rules.specs.Urgency.{nobody_awaits, state_with, states_with};

use rules::{SUSPENDED, TASKS};
use tables::Front;

// Without a way out before the last task, so that it vectorises: every call asks it.
pub(crate) fn nobody_awaits(f: &Front) -> bool
    ensures { result ≡ nobody_awaits f.now.awaits }
{
    f.awaits
        .iter()
        .fold(true, |none, entry| none & (*entry == 0))
}

// A task's state, from what is stored of it: 3 where it waits for a region.
pub fn state_with(awaited: u8, state: u8) -> u8
    ensures { result ≡ state_with awaited state }
{
    if awaited == 0 { state } else { SUSPENDED }
}

pub(crate) fn states_of(f: &Front) -> [u8; TASKS]
    ensures { result ≡ states_with f.now.awaits f.now.state }
{
    std::array::from_fn(|i| state_with(f.awaits[i], f.state[i]))
}
