//! The rows of a PLY input: its points, kept in a blob, and its triangles, one after another.
#![tactic(auto)]

mod corners;
mod face_row;
mod faces;
mod fault;
mod field;
mod frame;
mod hull;
mod item;
mod item_reader;
#[cfg(test)]
mod item_tests;
mod meaning;
mod place;
mod points;
mod polygon;
mod row;
mod spots;
#[cfg(test)]
mod spots_tests;
mod token;
mod unused;
mod walk;
mod whole_number;

pub use faces::Faces;
pub use fault::BodyFault;
pub use frame::Frame;
