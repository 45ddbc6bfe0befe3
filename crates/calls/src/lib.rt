// One call on a table whose store is lent: refused with the first reason that applies, or done by its kind.
#![tactic(auto)]

mod afresh;
mod call;
mod queue;
mod region;
mod task;
mod timer;

pub use call::{call_assuming, call_checked};
