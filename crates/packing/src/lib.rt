// Numbers and timers in bytes, the lowest byte first, read out of a block and written into one; and an answer as one number.
#![tactic(auto)]

mod packed_answer;
mod read;
mod room;
mod value;
mod width;
mod write;

pub use packed_answer::{NOT_A_TABLE, answer_number};
pub use read::take;
pub use value::Packed;
pub use width::{HALF_WIDTH, TIMER_WIDTH, UNUSED, WORD_WIDTH};
pub use write::put;
