// Why SEND and RETRIEVE are refused, once their numbers stand for something: the first reason that applies.
ghost use Rattle.std.specs.Prelude.{◌≡◌};
ghost use Rattle.rules.specs.Statuses.{status_of};
ghost use Rattle.rules.specs.Commands.{its_call};
ghost use Rattle.rules.specs.Words.{first};
ghost use Rattle.refusals.specs.ByKind.{full, lacking, queue_reasons};

use crate::reason::refuse;
use queues::place_of;
use rules::{Command, Operation, PLACES, QUEUES, Refusal};
use tables::{Front, Store, byte_at};

// 17: SEND to a queue at its bound.
fn full_of(f: &Front, k: Command) -> bool
    ensures { result ≡ full f.now.bound f.now.length (its_call k) }
{
    k.operation == Operation::Send
        && byte_at(&f.length, k.a as usize) >= byte_at(&f.bound, k.a as usize)
}

// 18: RETRIEVE where no element fits.
#[tactic(auto, unfolding(crate::specs::ByKind::lacking))]
fn lacking_of(f: &Front, store: &Store, k: Command) -> bool
    ensures { result ≡ lacking f.now.length store.now.criterion (its_call k) }
{
    if k.operation == Operation::Retrieve && k.a < QUEUES as u32 {
        let from = (k.a as usize) * PLACES;
        let to = from + (byte_at(&f.length, k.a as usize) as usize);
        return place_of(&store.criterion, from, to, k.c).is_none();
    }
    false
}

// 17 and 18: what is left to ask of SEND and RETRIEVE.
pub(crate) fn queue_reason_of(f: &Front, store: &Store, k: Command) -> Result<(), Refusal>
    ensures { status_of result ≡ first (queue_reasons f.now store.now.criterion (its_call k)) }
{
    refuse(full_of(f, k), Refusal::QueueFull)?;
    refuse(lacking_of(f, store, k), Refusal::NoneFits)
}
