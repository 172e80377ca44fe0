//! The mesh of an input in the order of its finest cut, with its vertices numbered.
#![tactic(auto)]

mod splitting;

pub use splitting::number;
