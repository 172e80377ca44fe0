//! Closed meshes of any size, made by a formula: the surface of a cube in squares of two triangles each.
#![tactic(auto)]

mod grid;
mod size;
mod square;

pub use size::{gen_count, gen_tri};

#[cfg(test)]
mod tests;
