//! The command `gen`: a closed mesh of any size, by a formula.
#![tactic(auto)]

mod generate;

pub use generate::run_gen;
