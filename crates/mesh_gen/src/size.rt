// The number of triangles of a mesh, and each of them.
ghost use Rattle.std.specs.Prelude.{◌≡◌, ◌<◌, ◌≤◌, ◌+◌, ◌*◌, pos, true, Some, length, slice_get};
ghost use Rattle.tpz_base.specs.declared.shape.Point.{Point};
ghost use Rattle.tpz_base.specs.Meshes.{is_whole, edge_sum};
ghost use Rattle.mesh_gen.specs.Generator.{generated, IsSize, IsTriUpTo};

use crate::square::{Square, half_of};
use tpz_base::Tri;

/// The number of triangles of the mesh of this size, which is closed: each edge of it runs as often one way as the other.
pub fn gen_count(n: u32) -> u32
    requires { IsSize n }
    ensures count { result ≡ length (generated n) }
    ensures value { result ≡ 12 * (n * n) }
    ensures closed { (a b : Point) → edge_sum (generated n) a b ≡ pos 0 }
{
    12 * (n * n)
}

/// The triangle at a place of the mesh of this size, counted from 0: by axis, side, and row, square by square.
pub fn gen_tri(n: u32, i: u32) -> Tri
    requires size { IsSize n }
    requires place { i < length (generated n) }
    ensures tri { slice_get (generated n) i ≡ Some result }
    ensures whole { is_whole result ≡ true }
    ensures bound { IsTriUpTo (64 * n + 32) result }
{
    let row = n * 2;
    let side = n * row;
    let in_axis = i % (2 * side);
    let in_side = in_axis % side;
    let in_row = in_side % row;
    let square = Square {
        axis: i / (2 * side),
        side: in_axis / side,
        p: in_side / row,
        q: in_row / 2,
    };
    half_of(n, square, in_row % 2)
}
