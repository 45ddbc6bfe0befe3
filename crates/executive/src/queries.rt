// The five queries: each answers and changes nothing.
ghost use Rattle.std.specs.Prelude.{◌≡◌, ◌≤◌, get_or};
ghost use Rattle.rules.specs.Events.{met};
ghost use Rattle.rules.specs.Queries.{empty_query, full_query, arrived_query, priority_query, state_query};

use crate::reply::{arrived_reply, object_reply};
use rules::{Answer, TASKS, Table};
use tables::byte_at;
use tasks::met_by;
use urgency::state_with;

// EMPTY: 1 if the queue holds nothing.
#[tactic(auto, using(crate::proofs::Replies::empty_is))]
pub fn empty(t: Table, queue: u32) -> Answer
    ensures { result ≡ empty_query t queue }
{
    let n = byte_at(&t.length, queue as usize);
    object_reply(&t, t.queues, queue, u32::from(n == 0))
}

// FULL: 1 if the queue is at its bound.
#[tactic(auto, using(crate::proofs::Replies::full_is))]
pub fn full(t: Table, queue: u32) -> Answer
    ensures { result ≡ full_query t queue }
{
    let most = byte_at(&t.bound, queue as usize);
    let n = byte_at(&t.length, queue as usize);
    object_reply(&t, t.queues, queue, u32::from(most <= n))
}

// The events of a task, none for one that does not exist.
fn events_at(arrived: &[u16; TASKS], i: u8) -> u16
    ensures { result ≡ get_or arrived.now i 0 }
{
    arrived.get(usize::from(i)).copied().unwrap_or(0)
}

// Whether the condition on the caller's events is met, where list and operator fit: elsewhere ARRIVED is refused.
fn condition_met(arrived: &[u16; TASKS], caller: u8, list: u32, operator: u32) -> bool
    ensures { list ≤ 65535 → operator ≤ 1 → result ≡ met operator list (get_or arrived.now caller 0) }
{
    let list_16 = u16::try_from(list).unwrap_or(0);
    let operator_8 = u8::try_from(operator).unwrap_or(0);
    met_by(operator_8, list_16, events_at(arrived, caller))
}

// ARRIVED: 1 if the condition on the caller's events is met.
pub fn arrived(t: Table, caller: u8, list: u32, operator: u32) -> Answer
    ensures { result ≡ arrived_query t caller list operator }
{
    let met = condition_met(&t.arrived, caller, list, operator);
    arrived_reply(&t, caller, list, operator, u32::from(met))
}

// PRIORITY: the task's configured number.
#[tactic(auto, unfolding(rules::specs::Queries::priority_query))]
pub fn priority(t: Table, task: u32) -> Answer
    ensures { result ≡ priority_query t task }
{
    let p = byte_at(&t.priority, task as usize);
    object_reply(&t, t.tasks, task, u32::from(p))
}

// STATE: 0 stopped, 1 ready, 2 waiting, 3 waiting for a region.
#[tactic(auto, unfolding(rules::specs::Queries::state_query))]
pub fn state(t: Table, task: u32) -> Answer
    ensures { result ≡ state_query t task }
{
    let stored = byte_at(&t.state, task as usize);
    let awaited = byte_at(&t.awaits, task as usize);
    object_reply(&t, t.tasks, task, u32::from(state_with(awaited, stored)))
}
