// Tasks: the condition that one waits for, what a signal makes of it, the check of all of them, and what a call does to one.
#![tactic(auto)]

mod check;
mod condition;
mod effect;
mod signal;

pub use check::tasks_right;
pub use condition::met_by;
pub use effect::{target_of, task_after};
pub use signal::signalled_by;
