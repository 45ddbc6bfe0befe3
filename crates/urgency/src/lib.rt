// Urgency: how urgent each task is through the tasks that it holds up, who gets a region, who is elected, and whether tasks wait in a circle.
#![tactic(auto)]

mod asking;
mod check;
mod circles;
mod column;
mod elected;
mod heir;
mod stored;
mod waiting;

pub use check::waiting_right;
pub use circles::meets_of;
pub use elected::{elect_now, elected_now};
pub use heir::heir_at_exit;
pub use waiting::state_with;
