// The tick counter, which starts again at 0: the count some ticks on, and how far a date lies ahead.
ghost use Rattle.std.specs.Prelude.{◌≡◌};
ghost use Rattle.rules.specs.Timers.{later, ahead};

#[tactic(auto, unfolding(rules::specs::Timers::later))]
pub(crate) fn later_by(ticks: u32, n: u32) -> u32
    ensures { result ≡ later ticks n }
{
    ticks.wrapping_add(n)
}

#[tactic(auto, unfolding(rules::specs::Timers::ahead))]
pub(crate) fn ahead_of(date: u32, ticks: u32) -> u32
    ensures { result ≡ ahead date ticks }
{
    date.wrapping_sub(ticks)
}
