// Upper-case hexadecimal digits, read and written; and numbers in decimal, read.
#![tactic(auto)]

mod decimal;
mod read;
mod write;

pub use decimal::decimal_of;
pub use read::{all_digits, two_digits_of};
pub use write::put_digits;
