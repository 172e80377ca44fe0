// From a tetrahedron to its children.
ghost use Rattle.std.specs.Prelude.{◌≡◌, ◌<◌, ◌*◌, suc};
ghost use Rattle.tpz_base.specs.Diamonds.{level_of};
ghost use Rattle.tetra_name.specs.Names.{child_of, point_of, tetrahedron_of, IsBound, IsCentre, IsName, IsWithin};
ghost use Rattle.tetra_name.specs.Steps.{child_pair, child_point};

use crate::direction::{long_axes, moved, rest_of};
use crate::shape::{Half, Tet};
use crate::slot::{Place, name_of, place_of};

/// The pair of directions of a child.
#[inline]
#[tactic(auto, unfolding(crate::specs::Steps::child_pair, crate::specs::Steps::opposite))]
fn child_pair(which: u8, u: Half, q: (u8, u8)) -> (u8, u8)
    requires which { which < 2 }
    requires first { q.0 < 6 }
    requires second { q.1 < 6 }
    ensures pair { result ≡ child_pair which (point_of u) q }
    ensures first { result.0 < 6 }
    ensures second { result.1 < 6 }
{
    let rest = rest_of(u, q);
    let odds = long_axes(u);
    if which == 0 {
        if odds == 3 {
            (q.0, rest)
        } else if odds == 2 {
            (rest, q.1)
        } else {
            (rest, q.0)
        }
    } else if odds == 3 {
        (q.1, 5 - q.0)
    } else if odds == 2 {
        (5 - q.0, q.1)
    } else {
        (5 - rest, q.0)
    }
}

/// The centre of a child, in units of half the length after an edge.
#[inline]
#[tactic(auto, unfolding(crate::specs::Steps::child_point, crate::specs::Steps::opposite))]
fn child_point(which: u8, u: Half, q: (u8, u8)) -> Half
    requires which { which < 2 }
    requires first { q.0 < 6 }
    requires second { q.1 < 6 }
    requires within { IsWithin 1073741824 (point_of u) }
    ensures { point_of result ≡ child_point which (point_of u) q }
{
    let rest = rest_of(u, q);
    if long_axes(u) >= 2 {
        if which == 0 {
            moved(u, 5 - rest, 1)
        } else {
            moved(u, q.0, 1)
        }
    } else {
        let double = Half {
            x: 2 * u.x,
            y: 2 * u.y,
            z: 2 * u.z,
        };
        let side = moved(double, q.1, 1);
        let face = moved(side, q.0, 1);
        if which == 0 {
            moved(face, 5 - rest, 1)
        } else {
            moved(face, rest, 1)
        }
    }
}

/// A child: 0 has the midpoint of the bisected edge in place of its end, 1 in place of its start.
pub fn child(t: Tet, which: u8, l: u8) -> Tet
    requires bound { IsBound l }
    requires name { IsName l t }
    requires which { which < 2 }
    requires level { level_of l (point_of t.centre) < 3 * l }
    ensures child { tetrahedron_of l result ≡ child_of which (tetrahedron_of l t) }
    ensures name { IsName l result }
    ensures centre { IsCentre l (point_of result.centre) }
    ensures level { level_of l (point_of result.centre) ≡ suc (level_of l (point_of t.centre)) }
{
    let p = place_of(t, l);
    let pair = child_pair(which, p.point, p.pair);
    let point = child_point(which, p.point, p.pair);
    if long_axes(p.point) == 1 {
        name_of(Place {
            power: p.power - 1,
            side: 2 * p.side,
            point,
            pair,
        })
    } else {
        name_of(Place {
            power: p.power,
            side: p.side,
            point,
            pair,
        })
    }
}
