// What is refused before the call's numbers are looked at.
ghost use Rattle.std.specs.Prelude.{◌≡◌, IfOk};
ghost use Rattle.rules.specs.Commands.{its_call};
ghost use Rattle.rules.specs.Statuses.{status_of};
ghost use Rattle.rules.specs.Words.{first};
ghost use Rattle.refusals.specs.Assuming.{early_reasons};

use crate::reason::refuse;
use rules::{Call, Command, OUTSIDE, Operation, Refusal};

// 10, 11, 13, 12, and 13 for a TICK by the elected task; else the call as the command that it is.
pub(crate) fn command_of(valid: bool, elected: u8, k: Call) -> Result<Command, Refusal>
    ensures status { status_of result ≡ first (early_reasons valid elected k) }
    ensures read { IfOk result (λ o. its_call o ≡ k) }
{
    refuse(!valid, Refusal::NotValid)?;
    let o = Command::try_from(k)?;
    let outside = o.caller == OUTSIDE;
    let signal = o.operation == Operation::Signal;
    let tick = o.operation == Operation::Tick;
    refuse(outside && !signal && !tick, Refusal::Barred)?;
    refuse(!outside && o.caller != elected, Refusal::NotElected)?;
    refuse(tick && !outside, Refusal::Barred)?;
    Ok(o)
}
