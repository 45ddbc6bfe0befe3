// Tables: one entry looked up, a table taken apart into its front and its store, its counts, and a fresh one from a configuration.
#![tactic(auto)]

mod configuration;
mod counts;
mod front;
mod lookup;

pub use configuration::fresh;
pub use counts::counts_right;
pub use front::{Front, FrontDone, Store, front_of, store_of, table_of};
pub use lookup::byte_at;
