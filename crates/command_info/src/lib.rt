//! The command `info`: what a store says of itself.
#![tactic(auto)]

mod info;

pub use info::run_info;
