// The bench's lines: where a line ends and the next one begins, over a slice and a place by value, and a reader that remembers its place.
#![tactic(auto)]

mod ends;
mod reader;

pub use ends::{LONGEST, Line};
pub use reader::{Reader, behind_lines, left, line_from, next_line, reader_of};
