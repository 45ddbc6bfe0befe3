// Why a call is refused: the first reason that applies, over a front and the criteria of its store.
#![tactic(auto)]

mod early;
mod numbers;
mod order;
mod queue_reasons;
mod reason;
mod region_reasons;
mod reported;
mod task_reasons;

pub use order::refusal_of;
pub use reason::refuse;
pub use reported::{refused_by, reported_by};
