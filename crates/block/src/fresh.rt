// Make fresh, on a block.
ghost use Rattle.std.specs.Prelude.{◌≡◌};
ghost use Rattle.layout.specs.Calls.{fresh_block};

use layout::{SIZE, pack};
use packing::{NOT_A_TABLE, answer_number};
use tables::fresh;

// A block of another size is not touched; any other holds the fresh table, or zeros after 20.
#[unsafe(no_mangle)]
#[tactic(auto, using(crate::proofs::FreshBlock::fresh_refused, crate::proofs::FreshBlock::fresh_made))]
pub extern "C" fn tankwesho_fresh<'a>(
    block: &mut [u8],
    tasks: u8,
    regions: u8,
    queues: u8,
    priorities: &'a [u8],
    bounds: &'a [u8],
    marks: &'a [u8],
) -> u64
    ensures answer { result ≡ (fresh_block block.old tasks regions queues priorities.now bounds.now marks.now).answer }
    ensures stored { block.new ≡ (fresh_block block.old tasks regions queues priorities.now bounds.now marks.now).block }
{
    if block.len() != SIZE {
        return NOT_A_TABLE;
    }
    let d = fresh(tasks, regions, queues, priorities, bounds, marks);
    pack(d.table, block);
    answer_number(d.answer)
}
