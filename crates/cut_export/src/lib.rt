//! Meshes as PLY text: vertices numbered in the order of first use, and parts that are written.
#![tactic(auto)]

mod export;
mod numbering;
mod part_buffer;
mod part_text;

pub use export::{ExportFault, write_mesh, write_numbered};
pub use numbering::{Corners, Numbered};
