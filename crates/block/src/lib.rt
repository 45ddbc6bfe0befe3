// The three functions for C, on a block of bytes that the firmware lends: make fresh, one call, one query.
#![tactic(auto)]

mod call;
mod fresh;
mod query;

pub use call::tankwesho_call;
pub use fresh::tankwesho_fresh;
pub use query::tankwesho_query;
