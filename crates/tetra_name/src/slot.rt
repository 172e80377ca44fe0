// The members of a diamond as pairs of directions, and their slots.
ghost use Rattle.std.specs.Prelude.{ℕ, ◌≡◌, ◌↔◌, ◌<◌, ◌≤◌, ◌^◌, ◌%◌, filter, slice_get, Some, IsSome};
ghost use Rattle.tpz_base.specs.Points.{point_scale};
ghost use Rattle.tetra_name.specs.Names.{count_of, point_of, IsBound, IsCentre, IsName, IsWithin};
ghost use Rattle.tetra_name.specs.Places.{IsPlace, TellsMember};
ghost use Rattle.tetra_name.specs.Steps.{is_member, long_axes, pairs, slot_at, IsScalable};

use crate::centre::scale_of;
use crate::direction::scaled;
use crate::shape::{Half, Tet};
use crate::state::{quick_count, quick_pair, quick_slot, states_of};

/// The pair of directions that tells the member at a slot.
#[inline]
fn pair_at(u: Half, side: u32, slot: u8) -> (u8, u8)
    requires within { IsWithin side (point_of u) }
    requires even { side % 2 ≡ 0 }
    requires some { 0 < long_axes (point_of u) }
    requires valid { IsSome (slice_get (filter (is_member side (point_of u)) pairs) slot) }
    ensures { slice_get (filter (is_member side (point_of u)) pairs) slot ≡ Some result }
{
    quick_pair(states_of(u, side), slot)
}

/// A tetrahedron in units: its diamond's centre as in `Scale`, and the pair of directions that tells it from the other members.
#[derive(Clone, Copy)]
pub(crate) struct Place {
    pub(crate) power: u32,
    pub(crate) side: u32,
    pub(crate) point: Half,
    pub(crate) pair: (u8, u8),
}

/// The tetrahedron of a name, in units.
#[inline]
pub(crate) fn place_of(t: Tet, l: u8) -> Place
    requires bound { IsBound l }
    requires name { IsName l t }
    ensures place { IsPlace l t result.power result.side (point_of result.point) result.pair }
    ensures first { result.pair.0 < 6 }
    ensures second { result.pair.1 < 6 }
    ensures power { result.power ≤ l }
    ensures side { result.side ≤ 2147483648 }
    ensures within { IsWithin result.side (point_of result.point) }
{
    let v = scale_of(t.centre, l);
    Place {
        power: v.power,
        side: v.side,
        point: v.point,
        pair: pair_at(v.point, v.side, t.slot),
    }
}

/// The name of a tetrahedron in units.
#[inline]
pub(crate) fn name_of(p: Place) -> Tet
    requires first { p.pair.0 < 6 }
    requires second { p.pair.1 < 6 }
    requires power { p.power < 32 }
    requires scalable { IsScalable p.power (point_of p.point) }
    requires member { TellsMember p.side (point_of p.point) p.pair }
    ensures centre { point_of result.centre ≡ point_scale (2 ^ p.power) (point_of p.point) }
    ensures slot { result.slot ≡ slot_at p.side (point_of p.point) p.pair }
{
    Tet {
        centre: scaled(p.point, p.power),
        slot: quick_slot(states_of(p.point, p.side), p.pair),
    }
}

/// How many members a diamond has: the number of its slots.
pub fn member_count(c: Half, l: u8) -> u8
    requires bound { IsBound l }
    requires centre { IsCentre l (point_of c) }
    ensures count { result ≡ count_of l (point_of c) }
    ensures slots { (i : ℕ) → (i < result ↔ IsName l (record { centre = c; slot = i })) }
{
    let v = scale_of(c, l);
    quick_count(states_of(v.point, v.side))
}
