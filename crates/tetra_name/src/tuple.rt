// The corners of a named tetrahedron, and the names of the roots.
ghost use Rattle.std.specs.Prelude.{◌≡◌, ◌<◌, ◌^◌, map, IfSome};
ghost use Rattle.std.specs.List.{AllByRecursion};
ghost use Rattle.tpz_base.specs.Points.{point_scale};
ghost use Rattle.tpz_base.specs.Diamonds.{level_of};
ghost use Rattle.tpz_base.specs.Tetrahedra.{BisectsLongest};
ghost use Rattle.tetra_name.specs.Names.{corners_of, point_of, root_at, tetrahedron_of, HasOwnCorners, IsBound, IsCentre, IsName, IsWithin, NamesEach};
ghost use Rattle.tetra_name.specs.Steps.{corners_at, IsScalable};

use crate::direction::{finish_point, long_axes, moved, scaled, start_point};
use crate::shape::{Half, Tet};
use crate::slot::place_of;

/// The corners that a pair of directions tells, in half-units.
#[inline]
#[tactic(auto, unfolding(crate::specs::Steps::corners_at, crate::specs::Steps::cube_corners, crate::specs::Steps::face_corners, crate::specs::Steps::edge_corners))]
fn corners_at(u: Half, q: (u8, u8), j: u32) -> [Half; 4]
    requires power { j < 32 }
    requires first { q.0 < 6 }
    requires second { q.1 < 6 }
    requires within { IsWithin 2147483648 (point_of u) }
    requires scalable { AllByRecursion (IsScalable j) (corners_at (point_of u) q) }
    ensures { map point_of result ≡ map (point_scale (2 ^ j)) (corners_at (point_of u) q) }
{
    let first = start_point(u);
    let last = finish_point(u);
    let odds = long_axes(u);
    if odds == 3 {
        let second = moved(first, q.0, 2);
        let third = moved(second, q.1, 2);
        [
            scaled(first, j),
            scaled(second, j),
            scaled(third, j),
            scaled(last, j),
        ]
    } else if odds == 2 {
        let second = moved(first, q.0, 2);
        let side = moved(u, q.1, 1);
        [
            scaled(first, j),
            scaled(second, j),
            scaled(last, j),
            scaled(side, j),
        ]
    } else {
        let face = moved(u, q.0, 1);
        let cube = moved(face, q.1, 1);
        [
            scaled(first, j),
            scaled(last, j),
            scaled(face, j),
            scaled(cube, j),
        ]
    }
}

/// The root at a slot. The six roots have the level 0, and are counted by the order of their steps along the axes: xyz, xzy, yxz, yzx, zxy, zyx.
/// From the roots `child` leads to every tetrahedron, and each of them has exactly one name.
pub fn root(slot: u8, l: u8) -> Tet
    requires bound { IsBound l }
    requires slot { slot < 6 }
    ensures root { tetrahedron_of l result ≡ root_at l slot }
    ensures name { IsName l result }
    ensures centre { IsCentre l (point_of result.centre) }
    ensures level { level_of l (point_of result.centre) ≡ 0 }
    ensures names { NamesEach l }
{
    let half: u32 = 1 << l;
    Tet {
        centre: Half {
            x: half,
            y: half,
            z: half,
        },
        slot,
    }
}

/// The corners x0 to x3 in half-units, in the order of the bisection. The edge from x0 to the corner that the level tells, x3, x2 or x1 by turns,
/// is bisected next. It is longer than the five others. No other name has these corners.
pub fn corners(t: Tet, l: u8) -> [Half; 4]
    requires bound { IsBound l }
    requires name { IsName l t }
    ensures corners { map point_of result ≡ corners_of l t }
    ensures own { HasOwnCorners l t }
    ensures longest { IfSome (tetrahedron_of l t) BisectsLongest }
{
    let p = place_of(t, l);
    corners_at(p.point, p.pair, p.power)
}
