// A bench session: a run over the input piece by piece, and its end.
#![tactic(auto)]

mod end;
mod feed;
mod pieces;

pub use bench_lines::{Standing, at_start};
pub use end::finish;
pub use pieces::{KEPT, PieceEnd, piece};
