// Why a call is refused for the regions that somebody holds: 16, 22, 23, 24 and 25, one test each.
ghost use Rattle.std.specs.Prelude.{◌≡◌, ◌&&◌, ◌||◌, eqb, get_or};
ghost use Rattle.rules.specs.Numbers.{WAIT};
ghost use Rattle.rules.specs.Commands.{its_call, operation_number};
ghost use Rattle.rules.specs.Words.{names};
ghost use Rattle.rules.specs.Regions.{occupied};
ghost use Rattle.rules.specs.Urgency.{closed_holders, holds_open};
ghost use Rattle.rules.specs.Refusals.{leaves, suspends, inside, closes_circle, stops_holder};
ghost use Rattle.refusals.specs.ByKind.{deepest, not_held};

use crate::numbers::leaves_of;
use regions::{closed_held, holds_open};
use rules::{Command, Operation};
use tables::{Front, byte_at};
use urgency::meets_of;

// Whether the caller holds the region. Its entry is compared 32 bits wide, since 255 has none.
fn names_caller(f: &Front, k: Command) -> bool
    ensures { result ≡ names (get_or f.now.holder k.a 0) k.caller }
{
    u32::from(byte_at(&f.holder, k.a as usize)) == u32::from(k.caller) + 1
}

// An ENTER of a region that another task holds.
fn suspends_of(f: &Front, k: Command) -> bool
    ensures { result ≡ suspends f.now.holder (its_call k) }
{
    k.operation == Operation::Enter && byte_at(&f.holder, k.a as usize) != 0 && !names_caller(f, k)
}

// WAIT, END, STOP of oneself and an ENTER that would suspend, while a closed region is occupied. No other call looks at these.
fn held_off(f: &Front, k: Command) -> bool
    ensures { result ≡ ((leaves (its_call k) || suspends f.now.holder (its_call k)) && occupied (closed_holders f.now.opened f.now.holder)) }
{
    (leaves_of(k) || suspends_of(f, k)) && closed_held(f) != 0
}

// WAIT by a holder of an open region.
fn wait_holding(f: &Front, k: Command) -> bool
    ensures { result ≡ (eqb (operation_number k.operation) WAIT && holds_open f.now.opened f.now.holder k.caller) }
{
    k.operation == Operation::Wait && holds_open(f, u32::from(k.caller))
}

// 16, in both its forms.
#[tactic(auto, unfolding(rules::specs::Refusals::inside))]
pub(crate) fn inside_of(f: &Front, k: Command) -> bool
    ensures { result ≡ inside f.now.opened f.now.holder (its_call k) }
{
    held_off(f, k) || wait_holding(f, k)
}

// 22: ENTER of a region of one's own whose count is at its end.
pub(crate) fn deepest_of(f: &Front, k: Command) -> bool
    ensures { result ≡ deepest f.now.holder f.now.entries (its_call k) }
{
    k.operation == Operation::Enter
        && names_caller(f, k)
        && byte_at(&f.entries, k.a as usize) == 255
}

// 23: EXIT of a region that the caller doesn't hold.
pub(crate) fn not_held_of(f: &Front, k: Command) -> bool
    ensures { result ≡ not_held f.now.holder (its_call k) }
{
    k.operation == Operation::Exit && !names_caller(f, k)
}

// 24: ENTER that would suspend, where the way from the region's holder comes to the caller.
#[tactic(auto, unfolding(rules::specs::Refusals::closes_circle))]
pub(crate) fn circle_of(f: &Front, k: Command) -> bool
    ensures { result ≡ closes_circle f.now.awaits f.now.holder (its_call k) }
{
    let h = byte_at(&f.holder, k.a as usize);
    if h == 0 {
        return false;
    }
    suspends_of(f, k) && meets_of(f, k.caller, h - 1)
}

// 25: STOP or END of a task that holds an open region.
#[tactic(auto, unfolding(rules::specs::Refusals::stops_holder))]
pub(crate) fn stops_holder_of(f: &Front, k: Command) -> bool
    ensures { result ≡ stops_holder f.now.opened f.now.holder (its_call k) }
{
    match k.operation {
        Operation::Stop => holds_open(f, k.a),
        Operation::End => holds_open(f, u32::from(k.caller)),
        _ => false,
    }
}
