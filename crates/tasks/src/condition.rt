// The condition of a waiting task: all, or any, of the listed events have arrived.
ghost use Rattle.std.specs.Prelude.{◌≡◌};
ghost use Rattle.rules.specs.Events.{met};

// Both cases are computed and one is picked, so that a check over all tasks has no branch here.
#[tactic(auto, using(crate::proofs::Signals::picked), unfolding(rules::specs::Events::met))]
pub fn met_by(operator: u8, list: u16, arrived: u16) -> bool
    ensures { result ≡ met operator list arrived }
{
    let both = list & arrived;
    let all = both == list;
    let any = both != 0;
    let is_all = operator == 0;
    (is_all & all) | (!is_all & any)
}
