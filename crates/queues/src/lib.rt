// Queues in the flat store: the check of their lengths, of what lies behind them and of the criteria, the place that RETRIEVE takes from, and the gap that it leaves.
#![tactic(auto)]

mod behind;
mod check;
mod gap;
mod place;

pub use check::{criteria_right, queues_right};
pub use gap::close_gap;
pub use place::place_of;
