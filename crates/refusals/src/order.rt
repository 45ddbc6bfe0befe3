// The refusals, in the order of the status table: the first that applies.
ghost use Rattle.std.specs.Prelude.{◌≡◌, IfOk};
ghost use Rattle.rules.specs.Statuses.{status_of};
ghost use Rattle.rules.specs.Commands.{its_call};
ghost use Rattle.rules.specs.Words.{first};
ghost use Rattle.refusals.specs.ByKind.{timer_reasons};
ghost use Rattle.refusals.specs.Assuming.{LateRefusal, RefusalAssuming};

use crate::early::command_of;
use crate::numbers::missing_of;
use crate::queue_reasons::queue_reason_of;
use crate::reason::refuse;
use crate::task_reasons::task_reason_of;
use rules::{Call, Command, Operation, Refusal};
use tables::{Front, Store};
use timers::others_at;

// 15 of the calls about timers: ARM and DISARM of one that another task has armed.
fn timer_reason_of(f: &Front, k: Command) -> Result<(), Refusal>
    ensures { status_of result ≡ first (timer_reasons f.now.timers (its_call k)) }
{
    refuse(
        k.operation != Operation::Tick && others_at(&f.timers, k.caller, k.a),
        Refusal::WrongState,
    )
}

// The reasons from 14 on, and only those that the operation can meet. The table is valid here, so that a queue that exists has its
// places in the store.
fn late_of(f: &Front, store: &Store, k: Command) -> Result<(), Refusal>
    ensures { LateRefusal f.now store.now.criterion (its_call k) (status_of result) }
{
    refuse(missing_of(f, k), Refusal::Missing)?;
    match k.operation {
        Operation::Start
        | Operation::Stop
        | Operation::End
        | Operation::Signal
        | Operation::Wait
        | Operation::Clear
        | Operation::Enter
        | Operation::Exit => task_reason_of(f, k),
        Operation::Send | Operation::Retrieve => queue_reason_of(f, store, k),
        Operation::Arm | Operation::Disarm | Operation::Tick => timer_reason_of(f, k),
    }
}

// The first reason that applies, or the call as the command that it is, if `valid` says whether the table is valid. Where it does not, the
// answer is of no use.
#[tactic(auto, using(crate::proofs::Refused::refused_early, crate::proofs::Refused::valid_then, crate::proofs::Refused::number_past))]
pub fn refusal_of(valid: bool, f: &Front, store: &Store, k: Call) -> Result<Command, Refusal>
    ensures status { RefusalAssuming valid f.now store.now.criterion k (status_of result) }
    ensures read { IfOk result (λ o. its_call o ≡ k) }
{
    let command = command_of(valid, f.elected, k)?;
    late_of(f, store, command)?;
    Ok(command)
}
