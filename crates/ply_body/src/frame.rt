// The frame of the points of an input.

/// The cube round the points, and where they lie in the blob.
#[derive(Clone, Copy, Debug, PartialEq, Eq)]
pub struct Frame {
    /// The level bound L, 1 to 30: the cube goes from 0 to 2^L on each axis, relative to `low`.
    pub l: u8,
    /// The least coordinates of all rows, in whole scaled units, each at most 2,147,483,647 in absolute value; 0 where there are
    /// no rows.
    pub low: [i64; 3],
    /// How many rows the used vertex element has.
    pub vertices: u64,
    /// The points lie in the blob from 0 to here, in bytes.
    pub end: u64,
}
