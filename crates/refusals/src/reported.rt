// What is answered to who is refused.
ghost use Rattle.std.specs.Prelude.{◌≡◌, cond, ◌||◌, eqb};
ghost use Rattle.rules.specs.Numbers.{nobody};
ghost use Rattle.rules.specs.Statuses.{number_of};

use rules::{Answer, NOBODY, Refusal};

// The elected task that the answer reports: 255 where the list of statuses says so, at 10 and 20; else the table's own.
pub fn reported_by(status: u8, elected: u8) -> u8
    ensures { result ≡ cond (eqb status 10 || eqb status 20) 255 elected }
{
    if status == Refusal::NotValid.number() || status == Refusal::OutOfRange.number() {
        return NOBODY;
    }
    elected
}

// The whole answer of a refusal.
pub fn refused_by(reason: Refusal, elected: u8) -> Answer
    ensures { result ≡ record { status = number_of reason; value = 0; key = 0; elected = cond (eqb (number_of reason) 10 || eqb (number_of reason) 20) nobody elected; displaced = nobody } }
{
    Answer::plain(reason.number(), reported_by(reason.number(), elected))
}
