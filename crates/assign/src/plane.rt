// The child of a tetrahedron that a triangle goes to.
//
// The plane that bisects a tetrahedron stands upright on the steps of its bisected edge along the axes, but for the middle step where there are
// three. So the side of a point is the sign of a sum of coordinates, and no determinant is computed.
ghost use Rattle.std.specs.Prelude.{ℕ, ◌≡◌, ◌<◌, ◌≤◌, ◌+◌, ◌*◌, ◌%◌, ◌^◌, pos, ◌+ℤ◌, int_lt, unsigned_abs, IfSome};
ghost use Rattle.std.specs.Option.{option_map};
ghost use Rattle.tpz_base.specs.Diamonds.{level_of};
ghost use Rattle.tetra_name.specs.Names.{child_of, over, point_of, tetrahedron_of, IsBound, IsName};
ghost use Rattle.assign.specs.Leans.{lean as lean_of, middle_axis as middle_axis_of, middle_step as middle_step_of, outer as outer_of};
ghost use Rattle.assign.specs.Paths.{entered, is_beyond as is_beyond_of, side_of};

use crate::sum::corner_sum;
use std::marker::Model;
use tetra_name::{Half, Tet, level};
use tpz_base::Tri;

/// The centre in units of 2^power half-units.
#[inline]
#[tactic(auto, unfolding(tetra_name::specs::Names::over))]
fn in_units(c: Half, power: u8) -> Half
    requires { power < 32 }
    ensures { point_of result ≡ over power (point_of c) }
{
    Half {
        x: c.x >> power,
        y: c.y >> power,
        z: c.z >> power,
    }
}

/// How far the barycentre is ahead of the midpoint of the bisected edge on one axis, counted in the edge's direction and six times as large, in
/// half-units. It is 0 where the edge doesn't run along the axis.
#[inline]
#[tactic(auto, unfolding(crate::specs::Leans::lean))]
fn lean(sum: u64, middle: u32, unit: u32) -> i64
    requires { sum < 3 * 2 ^ 32 }
    ensures value { result ≡ lean_of sum middle unit }
    ensures bound { unsigned_abs result ≤ 2 ^ 35 }
{
    if unit % 2 == 0 {
        0
    } else if unit % 4 == 1 {
        2 * sum as i64 - 3 * i64::from(middle)
    } else {
        3 * i64::from(middle) - 2 * sum as i64
    }
}

/// The axis of the middle one of three steps, by the directions of the diagonal along x and y and the slot. The steps are in the order x, y and
/// z forwards, then z, y and x backwards, so the direction along z doesn't matter.
const MIDDLE_AXES: [u8; 24] = [
    1, 2, 0, 2, 0, 1, 2, 0, 1, 0, 1, 2, 2, 1, 0, 1, 0, 2, 1, 0, 2, 0, 2, 1,
];

/// The axis of the middle step of the tetrahedron at a slot of a cube.
#[inline]
#[tactic(auto, unfolding(crate::specs::Leans::middle_axis, crate::specs::Leans::middle_axes))]
fn middle_axis(unit: Half, slot: u8) -> u8
    requires { slot < 6 }
    ensures { result ≡ middle_axis_of (point_of unit) slot }
{
    let x = unit.x % 4 / 2;
    let y = unit.y % 4 / 2;
    MIDDLE_AXES[6 * (x + 2 * y) as usize + slot as usize]
}

/// The axis of the middle step of the tetrahedron at a slot, whose level is `depth`. None where there are fewer than three steps.
#[inline]
fn middle_step(unit: Half, depth: u8, slot: u8) -> Option<u8>
    requires { depth % 3 ≡ 0 → slot < 6 }
    ensures { result ≡ middle_step_of (depth % 3) (point_of unit) slot }
{
    if depth % 3 == 0 {
        Some(middle_axis(unit, slot))
    } else {
        None
    }
}

/// The sum on the two other axes.
#[inline]
#[tactic(auto, unfolding(crate::specs::Leans::outer))]
fn outer(axis: u8, x: i64, y: i64, z: i64) -> i64
    requires x { unsigned_abs x ≤ 2 ^ 35 }
    requires y { unsigned_abs y ≤ 2 ^ 35 }
    requires z { unsigned_abs z ≤ 2 ^ 35 }
    ensures { result ≡ outer_of axis x y z }
{
    match axis {
        0 => y + z,
        1 => x + z,
        _ => x + y,
    }
}

/// The sum on the three axes.
#[inline]
fn total(x: i64, y: i64, z: i64) -> i64
    requires x { unsigned_abs x ≤ 2 ^ 35 }
    requires y { unsigned_abs y ≤ 2 ^ 35 }
    requires z { unsigned_abs z ≤ 2 ^ 35 }
    ensures { result ≡ x +ℤ (y +ℤ z) }
{
    x + (y + z)
}

/// Whether the number is above 0.
#[inline]
fn is_positive(n: i64) -> bool
    ensures { result ≡ int_lt (pos 0) n }
{
    n > 0
}

/// The plane that bisects a tetrahedron, ready to be asked for many triangles. It goes through the midpoint of the bisected edge and the two
/// corners that aren't on it.
#[derive(Debug, Drop)]
pub struct Plane {
    name: Tet,
    l: u8,
    unit: Half,
    axis: Option<u8>,
}

impl Model for Plane {
    ghost use Rattle.assign.specs.Planes.{Bisected, IsPlane};

    ghost Value = { Bisected };

    ghost view = { λ p. record { name = p.name; l = p.l } };

    ghost invariant = { λ p. IsPlane p.l p.name p.unit p.axis };
}

impl Plane {
    /// The plane of a tetrahedron above the last level.
    pub fn of(name: Tet, l: u8) -> Plane
        requires bound { IsBound l }
        requires name { IsName l name }
        requires level { level_of l (point_of name.centre) < 3 * l }
        ensures { result ≡ record { name = name; l = l } }
    {
        let depth = level(name.centre, l);
        let unit = in_units(name.centre, l - depth / 3);
        Plane {
            name,
            l,
            unit,
            axis: middle_step(unit, depth, name.slot),
        }
    }

    /// Whether the barycentre is strictly on the side of the plane where the bisected edge ends.
    #[inline]
    fn is_beyond(&self, t: &Tri) -> bool
        ensures { IfSome (tetrahedron_of self.now.l self.now.name) (λ T. result ≡ is_beyond_of t.now T) }
    {
        let c = self.name.centre;
        let sum = corner_sum(t);
        let x = lean(sum.x, c.x, self.unit.x);
        let y = lean(sum.y, c.y, self.unit.y);
        let z = lean(sum.z, c.z, self.unit.z);
        match self.axis {
            Some(axis) => is_positive(outer(axis, x, y, z)),
            None => is_positive(total(x, y, z)),
        }
    }

    /// The number of the child that t goes to: 1 exactly where its barycentre is strictly on the side of the plane where the bisected edge ends.
    /// The barycentre needn't lie in the tetrahedron.
    #[inline]
    pub fn side(&self, t: &Tri) -> u8
        ensures side { IfSome (tetrahedron_of self.now.l self.now.name) (λ T. result ≡ side_of t.now T) }
        ensures few { result < 2 }
        ensures child { child_of result (tetrahedron_of self.now.l self.now.name) ≡ option_map (entered t.now) (tetrahedron_of self.now.l self.now.name) }
    {
        u8::from(self.is_beyond(t))
    }
}

/// The number of the child that t goes to, as `Plane::side` has it, for one triangle.
pub fn side(name: Tet, t: &Tri, l: u8) -> u8
    requires bound { IsBound l }
    requires name { IsName l name }
    requires level { level_of l (point_of name.centre) < 3 * l }
    ensures side { IfSome (tetrahedron_of l name) (λ T. result ≡ side_of t.now T) }
    ensures few { result < 2 }
    ensures child { child_of result (tetrahedron_of l name) ≡ option_map (entered t.now) (tetrahedron_of l name) }
{
    Plane::of(name, l).side(t)
}
