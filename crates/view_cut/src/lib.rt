//! Views of a graph's records: which records a view wants, the front of those that are wanted, and which children of a record are active in a cut.
#![tactic(auto)]

mod activity;
mod looking;
mod wanting;

pub use activity::active;
pub use looking::Front;
pub use wanting::{View, wants};
