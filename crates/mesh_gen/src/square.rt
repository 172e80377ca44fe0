// The two triangles of a square.
ghost use Rattle.std.specs.Prelude.{◌≡◌, ◌<◌, ◌≤◌, ◌*◌, Some, slice_get};
ghost use Rattle.mesh_gen.specs.Generator.{corner_of, square};

use crate::grid::{placed, turned};
use tpz_base::{Point, Tri};

/// A square of the grid: on the side of the cube where the coordinate on an axis is 0, or where it is the size of the cube, from the grid point
/// with the coordinates p and q on the next two axes to the one with p + 1 and q + 1.
#[derive(Clone, Copy)]
pub(crate) struct Square {
    pub(crate) axis: u32,
    pub(crate) side: u32,
    pub(crate) p: u32,
    pub(crate) q: u32,
}

/// The corner of the mesh at these coordinates on the side of the square.
fn corner(n: u32, s: Square, u: u32, v: u32) -> Point
    requires size { n ≤ 500 }
    requires side { s.side ≤ 1 }
    requires u { u ≤ n }
    requires v { v ≤ n }
    ensures { result ≡ corner_of n s.axis s.side u v }
{
    placed(turned(s.axis, s.side * n, u, v))
}

/// The triangle of this number, 0 or 1, of a square.
pub(crate) fn half_of(n: u32, s: Square, half: u32) -> Tri
    requires size { n ≤ 500 }
    requires side { s.side ≤ 1 }
    requires p { s.p < n }
    requires q { s.q < n }
    requires half { half < 2 }
    ensures { slice_get (square n s.axis s.side s.p s.q) half ≡ Some result }
{
    let a = corner(n, s, s.p, s.q);
    let b = corner(n, s, s.p + 1, s.q);
    let c = corner(n, s, s.p + 1, s.q + 1);
    let d = corner(n, s, s.p, s.q + 1);
    match (s.side, half) {
        (0, 0) => Tri { a, b: c, c: b },
        (0, _) => Tri { a, b: d, c },
        (_, 0) => Tri { a, b, c },
        _ => Tri { a, b: c, c: d },
    }
}
