// The executive's public face: a fresh table, one call, and five queries. Every table and every call gets an answer, and each answer is the
// one that the rules give.
#![tactic(auto)]

mod by_value;
mod queries;
mod reply;

pub use by_value::call;
pub use queries::{arrived, empty, full, priority, state};
pub use tables::fresh;
