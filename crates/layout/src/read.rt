// The table read from a block: the front, the store, and whether the unused bytes are 0.
ghost use Rattle.std.specs.Prelude.{◌≡◌, length, replicate};
ghost use Rattle.layout.specs.Layout.{block_size, unused_zero, unpacked, element_place, criterion_place};
ghost use Rattle.packing.specs.Bytes.{word_width, taken, values_taken};
ghost use Rattle.layout.specs.Fronts.{front_taken};

use crate::place::{
    ARRIVED, AWAITS, BOUND, CRITERION, ELEMENT, ENTRIES, HOLDER, LENGTH, LIST, OPENED, OPERATOR,
    PRIORITY, STATE, TICKS, TIMER,
};
use packing::{Packed, TIMER_WIDTH, UNUSED, take};
use rules::{STORE, TIMERS, Table};
use tables::{Front, Store, byte_at, table_of};

// Each timer has a byte that is not used.
pub fn unused_zero(block: &[u8]) -> bool
    ensures { result ≡ unused_zero block.now }
{
    (0..TIMERS).fold(true, |zero, i| {
        zero & (byte_at(block, TIMER + TIMER_WIDTH * i + UNUSED) == 0)
    })
}

// Fills the places of the queues; leaves an array as it is that the block has no room for.
pub fn store_in(block: &[u8], element: &mut [u32], criterion: &mut [u8])
    ensures elements { element.new ≡ taken word_width element_place block.now element.old }
    ensures criteria { criterion.new ≡ taken 1 criterion_place block.now criterion.old }
{
    take(block, ELEMENT, element);
    take(block, CRITERION, criterion);
}

// As many values as the array has places; all 0 where the block has no room for them.
fn column<T: Packed, const N: usize>(block: &[u8], at: usize) -> [T; N]
    ensures { result ≡ values_taken T.WIDTH T.from_bytes at block.now (replicate N T.ZERO) }
{
    let mut column = [T::ZERO; N];
    take(block, at, &mut column);
    column
}

// All but the store. A part that the block has no room for is all 0.
#[tactic(auto, unfolding(crate::specs::Fronts::front_taken))]
pub fn front_in(block: &[u8]) -> Front
    ensures { result ≡ front_taken block.now }
{
    let [ticks] = column::<u32, 1>(block, TICKS);
    Front {
        tasks: byte_at(block, 0),
        regions: byte_at(block, 1),
        queues: byte_at(block, 2),
        elected: byte_at(block, 3),
        priority: column(block, PRIORITY),
        state: column(block, STATE),
        arrived: column(block, ARRIVED),
        list: column(block, LIST),
        operator: column(block, OPERATOR),
        awaits: column(block, AWAITS),
        holder: column(block, HOLDER),
        entries: column(block, ENTRIES),
        opened: column(block, OPENED),
        bound: column(block, BOUND),
        length: column(block, LENGTH),
        ticks,
        timers: column(block, TIMER),
    }
}

// The whole table, of a block of its size.
pub fn unpack(block: &[u8]) -> Table
    requires { length block.now ≡ block_size }
    ensures { result ≡ unpacked block.now }
{
    let mut store = Store {
        element: [0; STORE],
        criterion: [0; STORE],
    };
    store_in(block, &mut store.element, &mut store.criterion);
    table_of(front_in(block), store)
}
