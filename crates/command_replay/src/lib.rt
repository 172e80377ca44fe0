//! The commands `replay` and `tour`: the lines of a script over a store; a build, and then such a replay.
#![tactic(auto)]

mod replay;
mod tour;

pub use replay::run_replay;
pub use tour::run_tour;
