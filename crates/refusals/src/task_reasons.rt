// Why a call about tasks or regions is refused, once its numbers stand for something: the first reason that applies.
ghost use Rattle.std.specs.Prelude.{◌≡◌};
ghost use Rattle.rules.specs.Statuses.{status_of};
ghost use Rattle.rules.specs.Commands.{its_call};
ghost use Rattle.rules.specs.Words.{first};
ghost use Rattle.refusals.specs.ByKind.{wrong_task, task_reasons};

use crate::reason::refuse;
use crate::region_reasons::{circle_of, deepest_of, inside_of, not_held_of, stops_holder_of};
use rules::{Command, Operation, Refusal, STOPPED};
use tables::{Front, byte_at};

// 15 of the calls about tasks: START of a task not stopped, STOP or SIGNAL of a stopped one.
#[tactic(auto, unfolding(crate::specs::ByKind::wrong_task))]
fn wrong_task_of(f: &Front, k: Command) -> bool
    ensures { result ≡ wrong_task f.now.state (its_call k) }
{
    match k.operation {
        Operation::Start => byte_at(&f.state, k.a as usize) != STOPPED,
        Operation::Stop => byte_at(&f.state, k.a as usize) == STOPPED,
        Operation::Signal => byte_at(&f.state, k.b as usize) == STOPPED,
        _ => false,
    }
}

// 19, 15, 16, 22, 23, 24 and 25: what is left to ask of a call that is about tasks or regions.
pub(crate) fn task_reason_of(f: &Front, k: Command) -> Result<(), Refusal>
    ensures { status_of result ≡ first (task_reasons f.now (its_call k)) }
{
    refuse(
        k.operation == Operation::Wait && k.b > 1,
        Refusal::BadOperator,
    )?;
    refuse(wrong_task_of(f, k), Refusal::WrongState)?;
    refuse(inside_of(f, k), Refusal::Inside)?;
    refuse(deepest_of(f, k), Refusal::EntriesFull)?;
    refuse(not_held_of(f, k), Refusal::NotHeld)?;
    refuse(circle_of(f, k), Refusal::ClosesCircle)?;
    refuse(stops_holder_of(f, k), Refusal::StopsHolder)
}
