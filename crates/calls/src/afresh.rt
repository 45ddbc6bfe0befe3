// The election behind a call that may change who runs.
ghost use Rattle.std.specs.Prelude.{◌≡◌};
ghost use Rattle.tables.specs.Fronts.{storeless, front_done};
ghost use Rattle.calls.specs.Steps.{elected_afresh};

use regions::closed_held;
use rules::Answer;
use tables::Front;
use urgency::elect_now;

// The elected task is found afresh, and the answer says who it is and whom it displaces.
pub(crate) fn elect_afresh(f: &mut Front, status: u8) -> Answer
    ensures { front_done (elected_afresh (storeless f.old) status) ≡ record { front = f.new; answer = result } }
{
    let next = elect_now(f, f.elected, closed_held(f));
    f.elected = next.task;
    Answer {
        displaced: next.displaced,
        ..Answer::plain(status, next.task)
    }
}
