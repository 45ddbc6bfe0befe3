// The texts of the programs that run lists of tests: read whole, and the words of their lines that are numbers.
#![tactic(auto)]

mod number;
mod read;

pub use number::number_in;
pub use read::read_whole;
