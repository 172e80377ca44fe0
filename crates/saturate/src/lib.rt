//! What is known of a diamond's error and box, from its own moves and hull and from the records of its kids.
#![tactic(auto)]

mod kids;
mod own;

pub use kids::raise;
pub use own::own_error;

#[cfg(test)]
mod tests;
