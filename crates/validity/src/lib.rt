// Whether a table is valid: every rule of the list, by subject.
#![tactic(auto)]

mod check;

pub use check::{front_valid, is_valid};
