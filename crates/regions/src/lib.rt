// Regions: who holds them, the check of marks, holders and counts, and what ENTER and EXIT do to one.
#![tactic(auto)]

mod check;
mod effect;
mod holder;

pub use check::{closed_bits, entries_right, holder_right, open_holders_right, regions_right};
pub use effect::{entered, held_by_other, left_to};
pub use holder::{closed_held, holds_open};
