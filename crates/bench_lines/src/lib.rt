// The lines of a bench session: what stands before the first, what the first does, and what a later one asks for and does.
#![tactic(auto)]

mod first;
mod later;
mod start;

pub use first::{FirstLine, first_line_at};
pub use later::{LaterLine, later_line_at, line_assuming};
pub use start::{Standing, at_start, malformed_answer};
