// One reason of a list: what a chain of `?` goes past where it does not apply, and ends at where it does.
ghost use Rattle.std.specs.Prelude.{◌≡◌, true, false, MatchResult};

use rules::Refusal;

pub fn refuse(applies: bool, reason: Refusal) -> Result<(), Refusal>
    ensures { MatchResult result (λ _. applies ≡ false) (λ e. (applies ≡ true) × (e ≡ reason)) }
{
    if applies { Err(reason) } else { Ok(()) }
}
