// Timers: the tick counter, the check of all sixteen, what ARM, DISARM and STOP make of them, and a tick.
#![tactic(auto)]

mod arm;
mod check;
mod clock;
mod ring;

pub use arm::{others_at, timer_after, timers_left};
pub use check::timers_right;
pub use ring::tick;
