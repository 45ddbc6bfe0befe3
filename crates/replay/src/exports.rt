// A replay, for C or Rust to call with the block that holds the table.
ghost use Rattle.std.specs.Prelude.{◌≡◌};
ghost use Rattle.replay.specs.Replay.{replay_block};

use super::log::run_log;
use layout::{SIZE, front_in, pack_whole, store_in, unused_zero};
use rules::STORE;
use tables::Store;

// Makes the calls of the log, five numbers each, for as many as there is room for an answer, and tells how many. A block of another size,
// or with an unused byte that is not 0, is not touched. With `each` other than 0 the table is checked again before every call.
#[unsafe(no_mangle)]
#[tactic(auto, using(crate::proofs::Laps::on_a_block))]
pub extern "C" fn tankwesho_replay(
    block: &mut [u8],
    log: &[u32],
    answers: &mut [u64],
    each: u8,
) -> u64
    ensures count { result ≡ (replay_block block.old log.now answers.old).count }
    ensures block { block.new ≡ (replay_block block.old log.now answers.old).block }
    ensures answers { answers.new ≡ (replay_block block.old log.now answers.old).answers }
{
    if block.len() != SIZE || !unused_zero(block) {
        return 0;
    }
    let mut store = Store {
        element: [0; STORE],
        criterion: [0; STORE],
    };
    store_in(block, &mut store.element, &mut store.criterion);
    let run = run_log(front_in(block), each != 0, log, &mut store, answers);
    pack_whole(&run.front, &store.element, &store.criterion, block);
    run.count as u64
}
