// A line's frame: the call in a call line, and the answer line.
#![tactic(auto)]

mod answer;
mod call;

pub use answer::{ANSWER, put_answer};
pub use call::{CALL_LINE, request_at};
