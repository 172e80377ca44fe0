//! The command `build`: the store of an input.
#![tactic(auto)]

mod build;

pub use build::{Plan, run_build};
