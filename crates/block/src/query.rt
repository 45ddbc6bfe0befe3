// One query, on a block: the queries by number, on the table that the block holds.
ghost use Rattle.std.specs.Prelude.{◌≡◌, cond};
ghost use Rattle.rules.specs.Validity.{valid};
ghost use Rattle.rules.specs.Answers.{replied};
ghost use Rattle.layout.specs.Calls.{query_or_ten, query_block, not_a_table};

use executive::{arrived, empty, full, priority, state};
use layout::{SIZE, unpack, unused_zero};
use packing::{NOT_A_TABLE, answer_number};
use rules::{Answer, NOBODY, Refusal, Table};
use validity::is_valid;

// The queries by their numbers.
const ARRIVED: u8 = 0;

const EMPTY: u8 = 1;

const FULL: u8 = 2;

const PRIORITY: u8 = 3;

const STATE: u8 = 4;

// What a number above 4 gets: 10 comes before 11.
fn unknown_query(t: Table) -> Answer
    ensures { result ≡ cond (valid t) (replied t 11 0) not_a_table }
{
    if is_valid(t) {
        return Answer::plain(Refusal::NoOperation.number(), t.elected);
    }
    Answer::plain(Refusal::NotValid.number(), NOBODY)
}

#[tactic(auto, using(crate::proofs::QueryBlock::by_number))]
fn query_of(t: Table, query: u8, caller: u8, a: u32, b: u32) -> Answer
    ensures { result ≡ query_or_ten t query caller a b }
{
    match query {
        ARRIVED => arrived(t, caller, a, b),
        EMPTY => empty(t, a),
        FULL => full(t, a),
        PRIORITY => priority(t, a),
        STATE => state(t, a),
        _ => unknown_query(t),
    }
}

// A block that is no table gets 10.
#[unsafe(no_mangle)]
#[tactic(auto, using(crate::proofs::QueryBlock::on_a_block))]
pub extern "C" fn tankwesho_query(block: &[u8], query: u8, caller: u8, a: u32, b: u32) -> u64
    ensures { result ≡ query_block block.now query caller a b }
{
    if block.len() != SIZE || !unused_zero(block) {
        return NOT_A_TABLE;
    }
    answer_number(query_of(unpack(block), query, caller, a, b))
}
