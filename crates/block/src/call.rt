// One call, on a block.
ghost use Rattle.std.specs.Prelude.{◌≡◌};
ghost use Rattle.layout.specs.Calls.{call_of, call_block};

use calls::call_checked;
use layout::{SIZE, front_in, pack_front, pack_whole, store_in, unused_zero};
use packing::{NOT_A_TABLE, answer_number};
use rules::{Call, Operation, STORE};
use tables::Store;

// Nothing is written unless the call is accepted, and the store only by SEND and RETRIEVE: no other call changes it.
#[unsafe(no_mangle)]
#[tactic(auto, using(crate::proofs::CallBlock::on_a_block))]
pub extern "C" fn tankwesho_call(
    block: &mut [u8],
    caller: u8,
    operation: u8,
    a: u32,
    b: u32,
    c: u32,
) -> u64
    ensures answer { result ≡ (call_block block.old (call_of caller operation a b c)).answer }
    ensures stored { block.new ≡ (call_block block.old (call_of caller operation a b c)).block }
{
    if block.len() != SIZE || !unused_zero(block) {
        return NOT_A_TABLE;
    }
    let mut store = Store {
        element: [0; STORE],
        criterion: [0; STORE],
    };
    store_in(block, &mut store.element, &mut store.criterion);
    let k = Call {
        caller,
        operation,
        a,
        b,
        c,
    };
    let done = call_checked(front_in(block), k, &mut store);
    let number = answer_number(done.answer);
    if 10 <= done.answer.status {
        return number;
    }
    if operation == Operation::Send.number() || operation == Operation::Retrieve.number() {
        pack_whole(&done.front, &store.element, &store.criterion, block);
        return number;
    }
    pack_front(&done.front, block);
    number
}
