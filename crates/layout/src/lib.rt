// Where each part of the table stands in a block of bytes, and the table read from a block and written to one.
#![tactic(auto)]

mod place;
mod read;
mod write;

pub use place::SIZE;
pub use read::{front_in, store_in, unpack, unused_zero};
pub use write::{pack, pack_front, pack_whole};
