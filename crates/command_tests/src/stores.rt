// Stores that were worked out, as 32-bit little-endian numbers.

/// The store of a square of four triangles and two records: at most one triangle a tetrahedron.
pub const SQUARE: &str = "\
828002388 513 0 0 0 0 0 0 4 0 0 0 1 32768 2 0 520 0 616 0 4 4 4 0 2 0
0 0 0 4 4 2 396 0 124 0 4 4 0 2 2 0 0 0 0 4 4 0 208 0 188 0
1 0 0 0 4 0 0 2 2 0 1 4 0 0 4 4 0 2 2 0 1 0 4 0 0 0
0 2 2 0 1 4 4 0 0 4 0 2 2 0 1 2 2 0 0 0 0 1 4 0 0 4
4 0 0 0 0 0 0 0 1 4 4 0 0 4 0 0 0 0 0 0 0 0 0 0 0 0
1 4 0 0 4 4 0 0 0 0 0 1 4 4 0 0 4 0 0 0 0 0 0 0";

/// The store of two triangles at one place, down to the last level: at most one triangle a tetrahedron.
pub const DOUBLED: &str = "\
828002388 257 0 0 0 0 0 0 2 0 0 0 1 32768 4 0 664 0 760 0 2 2 2 0 0 0
0 0 0 2 2 1 540 0 124 0 2 0 2 0 0 0 0 0 0 2 2 1 520 0 20 0
2 2 0 0 0 0 0 0 0 2 2 0 428 0 92 0 2 0 0 0 0 0 0 0 0 2
2 0 336 0 92 0 0 2 0 0 0 2 0 0 2 2 0 0 0 0 2 0 0 2 2 0
0 0 0 2 0 0 0 2 0 0 2 2 0 0 0 0 2 0 0 2 2 0 0 0 0 0
0 0 0 0 0 2 0 0 0 2 0 0 2 2 0 0 0 0 2 0 0 2 2 0 0 0
0 0 0 0 0 0 0 0 0 0 2 0 0 0 2 0 0 2 2 0 0 0 0 2 0 0
2 2 0 0 0 0 0 0";
