// An answer as one number, which C can take from a register.
ghost use Rattle.std.specs.Prelude.{◌≡◌};
ghost use Rattle.packing.specs.Answers.{answer_number};

use rules::{Answer, NOBODY, Refusal};

// The number of 10, with nobody for the elected task and for the one displaced.
pub const NOT_A_TABLE: u64 = Refusal::NotValid as u64
    + 256 * (NOBODY as u64)
    + 16777216 * (NOBODY as u64);

// Bits 0 to 7 are the status, 8 to 15 the elected task, 16 to 23 the key, 24 to 31 the one displaced and 32 to 63 the value.
#[tactic(auto, unfolding(crate::specs::Answers::answer_number))]
pub fn answer_number(r: Answer) -> u64
    ensures { result ≡ answer_number r }
{
    u64::from(r.status)
        + 256 * u64::from(r.elected)
        + 65536 * u64::from(r.key)
        + 16777216 * u64::from(r.displaced)
        + 4294967296 * u64::from(r.value)
}
