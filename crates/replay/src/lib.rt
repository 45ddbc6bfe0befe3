// A log of calls on a block, one after the other, with the table taken out of the block once and put back once.
#![tactic(auto)]

mod exports;
mod log;

pub use exports::tankwesho_replay;
