//! An input, read through the work file: its mesh in memory, or its triangles in a stream behind the points.
#![tactic(auto)]

mod reading;

pub use reading::{Facts, InputMesh, InputStream, read_mesh, read_stream};
