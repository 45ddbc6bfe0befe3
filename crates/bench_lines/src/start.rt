// How a session begins: where it stands before the first line, what a refused first line leaves, and the answer of a malformed line.
ghost use Rattle.std.specs.Prelude.{◌≡◌};
ghost use Rattle.rules.specs.Fresh.{zero_table};
ghost use Rattle.rules.specs.Statuses.{number_of};
ghost use Rattle.bench_lines.specs.Start.{start, first_refused};
ghost use Rattle.bench_lines.specs.Steps.{malformed_answer};

use rules::{Answer, Done, NOBODY, Refusal, Table};
use tables::fresh;

// Where a session stands: its table, the table of zeros at the start, and whether the first line has come.
#[derive(Clone, Copy)]
pub struct Standing {
    pub table: Table,
    pub begun: bool,
}

// The table of zeros: that of a configuration without a task.
fn zeros() -> Table
    ensures { result ≡ zero_table }
{
    fresh(0, 0, 0, b"", b"", b"").table
}

// Before the first line.
pub fn at_start() -> Standing
    ensures { result ≡ start }
{
    Standing {
        table: zeros(),
        begun: false,
    }
}

// What a refused first line leaves: the table of zeros, and nobody elected.
pub(crate) fn first_refused(reason: Refusal) -> Done
    ensures { result ≡ first_refused (number_of reason) }
{
    Done {
        table: zeros(),
        answer: Answer::plain(reason.number(), NOBODY),
    }
}

// Only the table of zeros has no task; it has no elected task to report.
#[tactic(auto, unfolding(crate::specs::Steps::malformed_answer))]
pub fn malformed_answer(tasks: u8, elected: u8) -> Answer
    ensures { result ≡ malformed_answer tasks elected }
{
    let who = if tasks == 0 { NOBODY } else { elected };
    Answer::plain(Refusal::Malformed.number(), who)
}
