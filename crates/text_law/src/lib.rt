//! The law of texts: what the text of a mesh means, read back as an input.
#![tactic(auto)]

mod law;

pub use law::text_law;
