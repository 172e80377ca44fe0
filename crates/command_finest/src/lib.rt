//! The command `finest`: the mesh of an input, as it was read, in the order of its finest cut.
#![tactic(auto)]

mod finest;

pub use finest::run_finest;
