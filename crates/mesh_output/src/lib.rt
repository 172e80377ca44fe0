//! What a command writes: a mesh as a part, and a note behind it.
#![tactic(auto)]

mod export;

pub use export::write_part_and_note;
