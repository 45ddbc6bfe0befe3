// Circles: the way from a task over the region that it waits for to who holds that, whether it ends, and whom it meets.
ghost use Rattle.std.specs.Prelude.{◌≡◌};
ghost use Rattle.rules.specs.Numbers.{task_room};
ghost use Rattle.rules.specs.Circles.{onward, ends, meets, no_circle};
ghost use Rattle.urgency.specs.Named.{stored};

use crate::stored::named;
use crate::waiting::nobody_awaits;
use rules::TASKS;
use tables::Front;

// Who holds what the task waits for; nobody where the way ends, and for numbers out of range.
#[tactic(auto, unfolding(rules::specs::Circles::onward))]
fn onward_of(f: &Front, i: u8) -> Option<u8>
    ensures { stored result ≡ onward f.now.awaits f.now.holder i }
{
    let region = named(*f.awaits.get(usize::from(i))?)?;
    named(*f.holder.get(usize::from(region))?)
}

// The way from task i ends within so many steps.
#[tactic(auto, unfolding(rules::specs::Circles::ends))]
fn ends_of(f: &Front, left: u8, i: u8) -> bool
    ensures { result ≡ ends f.now.awaits f.now.holder left i }
{
    match onward_of(f, i) {
        None => true,
        Some(next) => left != 0 && ends_of(f, left - 1, next),
    }
}

// The way from task i comes to the caller within so many steps.
#[tactic(auto, unfolding(rules::specs::Circles::meets))]
fn meets_within(f: &Front, left: u8, caller: u8, i: u8) -> bool
    ensures { result ≡ meets f.now.awaits f.now.holder left caller i }
{
    if i == caller {
        return true;
    }
    match onward_of(f, i) {
        None => false,
        Some(next) => left != 0 && meets_within(f, left - 1, caller, next),
    }
}

// As many steps as there are tasks are enough: a way that has not met the caller by then goes round without it.
pub fn meets_of(f: &Front, caller: u8, i: u8) -> bool
    ensures { result ≡ meets f.now.awaits f.now.holder task_room caller i }
{
    meets_within(f, TASKS as u8, caller, i)
}

// The first way that doesn't end is enough, so that a table with a circle costs little.
fn each_ends(f: &Front) -> bool
    ensures { result ≡ no_circle f.now.awaits f.now.holder }
{
    (0..TASKS as u8).all(|i| ends_of(f, TASKS as u8, i))
}

// Where nobody waits for a region, no way has a step.
pub(crate) fn no_circle(f: &Front) -> bool
    ensures { result ≡ no_circle f.now.awaits f.now.holder }
{
    nobody_awaits(f) || each_ends(f)
}
