// One call on a table whose store is lent: refused with the first reason that applies, or done by its kind.
ghost use Rattle.std.specs.Prelude.{◌≡◌};
ghost use Rattle.rules.specs.Step.{step};
ghost use Rattle.tables.specs.Fronts.{whole, front_done};
ghost use Rattle.calls.specs.Steps.{StepAssuming};

use crate::queue::{retrieve_call, send_call};
use crate::region::{enter_call, exit_call};
use crate::task::task_call;
use crate::timer::{tick_call, timer_call};
use refusals::{refusal_of, refused_by};
use rules::{Call, Operation};
use tables::{Front, FrontDone, Store};
use validity::front_valid;

// `valid` says whether the table is valid: whoever makes many calls on one table need not look at it each time, since a call leaves a valid
// table valid. Told the truth, this is the step of the rules; told a lie, it is safe, and what comes out is of no use. The front goes straight
// to the function for the kind of call and straight back: each further pass of it would copy it.
pub fn call_assuming(f: Front, valid: bool, k: Call, store: &mut Store) -> FrontDone
    ensures { StepAssuming valid (whole f store.old.element store.old.criterion) k result store.new.element store.new.criterion }
{
    let command = match refusal_of(valid, &f, store, k) {
        Ok(command) => command,
        Err(reason) => {
            return FrontDone {
                front: f,
                answer: refused_by(reason, f.elected),
            };
        }
    };
    match command.operation {
        Operation::Start
        | Operation::Stop
        | Operation::End
        | Operation::Signal
        | Operation::Wait
        | Operation::Clear => task_call(f, command),
        Operation::Enter => enter_call(f, command),
        Operation::Exit => exit_call(f, command),
        Operation::Send => send_call(f, command, store),
        Operation::Retrieve => retrieve_call(f, command, store),
        Operation::Arm | Operation::Disarm => timer_call(f, command),
        Operation::Tick => tick_call(f),
    }
}

pub fn call_checked(f: Front, k: Call, store: &mut Store) -> FrontDone
    ensures front { result ≡ front_done (step (whole f store.old.element store.old.criterion) k) }
    ensures elements { store.new.element ≡ (step (whole f store.old.element store.old.criterion) k).table.element }
    ensures criteria { store.new.criterion ≡ (step (whole f store.old.element store.old.criterion) k).table.criterion }
{
    let valid = front_valid(&f, store);
    call_assuming(f, valid, k, store)
}
