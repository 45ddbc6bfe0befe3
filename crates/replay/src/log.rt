// The calls of a log, one after the other, on a table whose store is lent.
ghost use Rattle.std.specs.Prelude.{◌≡◌};
ghost use Rattle.tables.specs.Fronts.{whole, front_of};
ghost use Rattle.replay.specs.Log.{call_at, laps, logged};

use calls::call_assuming;
use packing::answer_number;
use rules::Call;
use tables::{Front, Store};
use validity::front_valid;

// After a log: the front, and how many calls were made.
#[derive(Clone, Copy)]
pub(crate) struct LogRun {
    pub(crate) front: Front,
    pub(crate) count: usize,
}

// A call by its five numbers; caller and operation are taken modulo 256.
fn call_of(numbers: &[u32; 5]) -> Call
    ensures { result ≡ call_at numbers.now 0 }
{
    let [caller, operation, a, b, c] = *numbers;
    Call {
        caller: (caller % 256) as u8,
        operation: (operation % 256) as u8,
        a,
        b,
        c,
    }
}

// Makes the calls of the log, five numbers each, for as many as there is room for an answer. The table is checked once, since whether it is
// valid stays as it is from call to call, or before every call where `each` asks for it, so that both can be timed.
pub(crate) fn run_log(
    mut f: Front,
    each: bool,
    log: &[u32],
    store: &mut Store,
    answers: &mut [u64],
) -> LogRun
    ensures count { result.count ≡ laps log.now answers.old }
    ensures front { result.front ≡ front_of (logged (whole f store.old.element store.old.criterion) log.now answers.old).table }
    ensures elements { store.new.element ≡ (logged (whole f store.old.element store.old.criterion) log.now answers.old).table.element }
    ensures criteria { store.new.criterion ≡ (logged (whole f store.old.element store.old.criterion) log.now answers.old).table.criterion }
    ensures answers { answers.new ≡ (logged (whole f store.old.element store.old.criterion) log.now answers.old).answers }
{
    let (calls, _) = log.as_chunks::<5>();
    let count = calls.len().min(answers.len());
    let known = front_valid(&f, store);
    for (i, numbers) in calls[..count].iter().enumerate() {
        let valid = if each { front_valid(&f, store) } else { known };
        let done = call_assuming(f, valid, call_of(numbers), store);
        answers[i] = answer_number(done.answer);
        f = done.front;
    }
    LogRun { front: f, count }
}
