// The commands of a script.

/// A command of a script.
#[derive(Clone, Copy, Debug, PartialEq, Eq)]
pub enum Line {
    /// A view: where the eye is, in scaled coordinates of the input, each at most 2^40 away from 0, and the tolerance.
    Look { x: i64, y: i64, z: i64, tol: u32 },
    /// Write a part of the last view.
    Write,
}
