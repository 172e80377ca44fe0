//! The blocks of a cut's records, each read from a store as often as the tries say, and the patches that they show.
#![tactic(auto)]

mod blocks;

pub use blocks::{Shown, read_cut, read_with_tries, views_of};
