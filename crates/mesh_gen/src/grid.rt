// Points of the grid on the surface of a cube, and where the mesh has them.
ghost use Rattle.std.specs.Prelude.{◌≡◌, ◌≤◌, ◌+◌, ◌*◌};
ghost use Rattle.tpz_base.specs.Points.{point};
ghost use Rattle.mesh_gen.specs.Generator.{mixed as mixed_of, placed as placed_at, on_axes, IsUpTo};

use tpz_base::Point;

/// A number that differs from grid point to grid point, so that no face of the mesh is flat.
fn mixed(g: Point) -> u32
    requires { IsUpTo 500 g }
    ensures value { result ≡ mixed_of g }
    ensures bound { result ≤ 16000000 }
{
    31 * g.x * g.y + 17 * g.y * g.z + 13 * g.z * g.x + 7 * g.x + 5 * g.y + 3 * g.z
}

/// The point of the mesh at a grid point, in whole scaled units: grid points are 64 apart, and each is moved by up to 32 on each axis.
pub(crate) fn placed(g: Point) -> Point
    requires { IsUpTo 500 g }
    ensures { result ≡ placed_at g }
{
    let b = mixed(g);
    Point {
        x: 64 * g.x + b % 33,
        y: 64 * g.y + (b + 11) % 33,
        z: 64 * g.z + (b + 22) % 33,
    }
}

/// The grid point with these coordinates on an axis and on the two that follow it in turn.
pub(crate) fn turned(axis: u32, c: u32, u: u32, v: u32) -> Point
    ensures { result ≡ on_axes axis c u v }
{
    match axis {
        0 => Point { x: c, y: u, z: v },
        1 => Point { x: v, y: c, z: u },
        _ => Point { x: u, y: v, z: c },
    }
}
