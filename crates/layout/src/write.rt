// The table written to a block: the whole of it, or all but the store.
ghost use Rattle.std.specs.Prelude.{◌≡◌, length};
ghost use Rattle.layout.specs.Layout.{block_size, packed};
ghost use Rattle.layout.specs.Heads.{columns_put, heads_put, head_put};
ghost use Rattle.layout.specs.Wholes.{tail_put, whole_put, front_packed};

use crate::place::{
    ARRIVED, AWAITS, BOUND, CRITERION, ELEMENT, ENTRIES, HOLDER, LENGTH, LIST, OPENED, OPERATOR,
    PRIORITY, STATE, TICKS, TIMER,
};
use packing::put;
use rules::Table;
use tables::{Front, front_of, store_of};

// What is said of the tasks, a column behind the other.
fn put_columns(f: &Front, block: &mut [u8])
    ensures { block.new ≡ columns_put f.now.priority f.now.state f.now.arrived f.now.list f.now.operator f.now.awaits block.old }
{
    put(block, PRIORITY, &f.priority);
    put(block, STATE, &f.state);
    put(block, ARRIVED, &f.arrived);
    put(block, LIST, &f.list);
    put(block, OPERATOR, &f.operator);
    put(block, AWAITS, &f.awaits);
}

// The regions, and the bounds and lengths of the queues.
fn put_heads(f: &Front, block: &mut [u8])
    ensures { block.new ≡ heads_put f.now.holder f.now.entries f.now.opened f.now.bound f.now.length block.old }
{
    put(block, HOLDER, &f.holder);
    put(block, ENTRIES, &f.entries);
    put(block, OPENED, &f.opened);
    put(block, BOUND, &f.bound);
    put(block, LENGTH, &f.length);
}

// All that stands before the store.
#[tactic(auto, unfolding(crate::specs::Heads::head_put))]
fn put_head(f: &Front, block: &mut [u8])
    ensures { block.new ≡ head_put f.now block.old }
{
    put(block, 0, &[f.tasks, f.regions, f.queues, f.elected]);
    put_columns(f, block);
    put_heads(f, block);
}

// All that stands behind it.
#[tactic(auto, using(packing::proofs::RoundTrips::timers_put_is), unfolding(crate::specs::Wholes::tail_put))]
fn put_tail(f: &Front, block: &mut [u8])
    ensures { block.new ≡ tail_put f.now.ticks f.now.timers block.old }
{
    put(block, TICKS, &[f.ticks]);
    put(block, TIMER, &f.timers);
}

// The front and the store. What the block has no room for is left out.
#[tactic(auto, unfolding(crate::specs::Wholes::whole_put))]
pub fn pack_whole(f: &Front, element: &[u32], criterion: &[u8], block: &mut [u8])
    ensures { block.new ≡ whole_put f.now element.now criterion.now block.old }
{
    put_head(f, block);
    put(block, ELEMENT, element);
    put(block, CRITERION, criterion);
    put_tail(f, block);
}

// The table, in a block of its size.
pub fn pack(t: Table, block: &mut [u8])
    requires { length block.old ≡ block_size }
    ensures { block.new ≡ packed t }
{
    let store = store_of(t);
    pack_whole(&front_of(t), &store.element, &store.criterion, block);
}

// The table but for its store, whose bytes stay.
#[tactic(auto, unfolding(crate::specs::Wholes::front_packed))]
pub fn pack_front(front: &Front, block: &mut [u8])
    ensures { block.new ≡ front_packed front.now block.old }
{
    put_head(front, block);
    put_tail(front, block);
}
