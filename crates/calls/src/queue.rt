// SEND and RETRIEVE, once accepted: one queue changes, in a store that is lent. Neither tasks nor holders change, so that nobody is elected
// afresh. Of an accepted call the remainders change nothing: they keep the places in range where it was told a lie about the table, and so does the way out where nothing is found.
ghost use Rattle.std.specs.Prelude.{◌≡◌, length};
ghost use Rattle.rules.specs.Numbers.{SEND, RETRIEVE};
ghost use Rattle.tables.specs.Fronts.{whole};
ghost use Rattle.rules.specs.Commands.{its_call, operation_number};
ghost use Rattle.calls.specs.Steps.{StepAccepted};

use queues::{close_gap, place_of};
use rules::{Answer, Command, PLACES, QUEUES, STORE};
use tables::{Front, FrontDone, Store};

pub(crate) fn send_call(mut t: Front, k: Command, store: &mut Store) -> FrontDone
    requires { operation_number k.operation ≡ SEND }
    ensures { StepAccepted (whole t store.old.element store.old.criterion) (its_call k) result store.new.element store.new.criterion }
{
    let at = (k.a as usize) % QUEUES;
    let n = t.length[at];
    let end = (at * PLACES + (n as usize)) % STORE;
    store.element[end] = k.b;
    store.criterion[end] = (k.c % 256) as u8;
    t.length[at] = n.wrapping_add(1);
    FrontDone {
        front: t,
        answer: Answer::plain(0, t.elected),
    }
}

pub(crate) fn retrieve_call(mut t: Front, k: Command, store: &mut Store) -> FrontDone
    requires { operation_number k.operation ≡ RETRIEVE }
    ensures { StepAccepted (whole t store.old.element store.old.criterion) (its_call k) result store.new.element store.new.criterion }
{
    let at = (k.a as usize) % QUEUES;
    let n = t.length[at];
    let from = at * PLACES;
    let end = from + (n as usize);
    let Some(place) = place_of(&store.criterion, from, end, k.c) else {
        return FrontDone {
            front: t,
            answer: Answer::plain(0, t.elected),
        };
    };
    let value = store.element[place];
    let key = store.criterion[place];
    close_gap(store, place, end);
    t.length[at] = n.wrapping_sub(1);
    FrontDone {
        front: t,
        answer: Answer {
            value,
            key,
            ..Answer::plain(0, t.elected)
        },
    }
}
