// From a tetrahedron to its parent.
ghost use Rattle.std.specs.Prelude.{◌≡◌, ◌↔◌, ◌<◌, suc, IsNone, IfSome};
ghost use Rattle.tpz_base.specs.Diamonds.{level_of};
ghost use Rattle.tetra_name.specs.Names.{child_of, point_of, tetrahedron_of, IsBound, IsCentre, IsName, IsWithin};
ghost use Rattle.tetra_name.specs.Steps.{parent_pair, parent_point, parent_which};

use crate::direction::{coordinate, long_axes, moved, rest_of, start_point};
use crate::shape::{Half, Tet};
use crate::slot::{Place, name_of, place_of};

/// Which child of its parent a member is.
#[inline]
#[tactic(auto, unfolding(crate::specs::Steps::parent_which))]
fn parent_which(u: Half, q: (u8, u8)) -> u8
    requires first { q.0 < 6 }
    requires second { q.1 < 6 }
    requires within { IsWithin 2147483648 (point_of u) }
    ensures { result ≡ parent_which (point_of u) q }
{
    let odds = long_axes(u);
    let is_first = if odds == 3 {
        coordinate(start_point(u), q.0) % 8 == 0
    } else if odds == 2 {
        coordinate(u, q.1) % 4 == 0
    } else {
        coordinate(u, q.0) % 4 == 0
    };
    if is_first { 0 } else { 1 }
}

/// The pair of directions of the parent.
#[inline]
#[tactic(auto, unfolding(crate::specs::Steps::parent_pair, crate::specs::Steps::opposite))]
fn parent_pair(u: Half, q: (u8, u8), which: u8) -> (u8, u8)
    requires first { q.0 < 6 }
    requires second { q.1 < 6 }
    requires which { which ≡ parent_which (point_of u) q }
    ensures pair { result ≡ parent_pair (point_of u) q }
    ensures first { result.0 < 6 }
    ensures second { result.1 < 6 }
{
    let rest = rest_of(u, q);
    let odds = long_axes(u);
    if odds == 3 {
        (q.1, rest)
    } else if odds == 2 {
        if which == 0 {
            (q.0, rest)
        } else {
            (5 - q.1, q.0)
        }
    } else if which == 0 {
        (rest, q.1)
    } else {
        (5 - q.0, q.1)
    }
}

/// The centre of the parent, in units of twice the length before an edge.
#[inline]
#[tactic(auto, unfolding(crate::specs::Steps::parent_point, crate::specs::Steps::half_point))]
fn parent_point(u: Half, q: (u8, u8)) -> Half
    requires first { q.0 < 6 }
    requires second { q.1 < 6 }
    requires within { IsWithin 2147483648 (point_of u) }
    ensures { point_of result ≡ parent_point (point_of u) q }
{
    let odds = long_axes(u);
    if odds == 3 {
        let middle = moved(start_point(u), q.0, 2);
        Half {
            x: middle.x / 2,
            y: middle.y / 2,
            z: middle.z / 2,
        }
    } else if odds == 2 {
        moved(u, q.1, 1)
    } else {
        moved(u, q.0, 1)
    }
}

/// The parent, and which of its children t is. None comes exactly for the roots.
pub fn parent(t: Tet, l: u8) -> Option<(Tet, u8)>
    requires bound { IsBound l }
    requires name { IsName l t }
    ensures root { IsNone result ↔ (level_of l (point_of t.centre) ≡ 0) }
    ensures name { IfSome result (λ r. IsName l r.0) }
    ensures centre { IfSome result (λ r. IsCentre l (point_of r.0.centre)) }
    ensures which { IfSome result (λ r. r.1 < 2) }
    ensures child { IfSome result (λ r. child_of r.1 (tetrahedron_of l r.0) ≡ tetrahedron_of l t) }
    ensures level { IfSome result (λ r. level_of l (point_of t.centre) ≡ suc (level_of l (point_of r.0.centre))) }
{
    let p = place_of(t, l);
    let which = parent_which(p.point, p.pair);
    let pair = parent_pair(p.point, p.pair, which);
    let point = parent_point(p.point, p.pair);
    if long_axes(p.point) != 3 {
        let name = name_of(Place {
            power: p.power,
            side: p.side,
            point,
            pair,
        });
        return Some((name, which));
    }
    if p.power == l as u32 {
        return None;
    }
    let name = name_of(Place {
        power: p.power + 1,
        side: p.side / 2,
        point,
        pair,
    });
    Some((name, which))
}
