// Centres of diamonds: the test of one, the greatest unit in which one is whole, and its level.
ghost use Rattle.std.specs.Prelude.{◌%◌, ◌≡◌, ◌↔◌, ◌<◌, ◌≤◌, ◌*◌, IsTrue};
ghost use Rattle.tpz_base.specs.Diamonds.{level_of};
ghost use Rattle.tetra_name.specs.Names.{over, point_of, power_of, IsBound, IsCentre, IsWhole, IsWithin};
ghost use Rattle.tetra_name.specs.Places.{IsScale};
ghost use Rattle.tetra_name.specs.Steps.{long_axes};

use crate::direction::long_axes;
use crate::shape::Half;

/// How often two divides the three coordinates.
#[inline]
fn power(c: Half) -> u32
    ensures { result ≡ power_of (point_of c) }
{
    c.x.trailing_zeros()
        .min(c.y.trailing_zeros())
        .min(c.z.trailing_zeros())
}

/// The point whose unit is 2^j half-units.
#[inline]
#[tactic(auto, unfolding(crate::specs::Names::over))]
fn in_units(c: Half, j: u32) -> Half
    requires { j < 32 }
    ensures { point_of result ≡ over j (point_of c) }
{
    Half {
        x: c.x >> j,
        y: c.y >> j,
        z: c.z >> j,
    }
}

/// Whether the point lies in the cube of this side.
#[inline]
pub(crate) fn is_within(c: Half, side: u32) -> bool
    ensures { IsTrue result ↔ IsWithin side (point_of c) }
{
    c.x <= side && c.y <= side && c.z <= side
}

/// Whether c is the centre of a diamond: the midpoint of the bisected edge of some tetrahedron of the levels from 0 to 3l. Coordinates are in
/// half-units, so the cube goes from 0 to 2^(l + 1).
pub fn is_centre(c: Half, l: u8) -> bool
    requires { IsBound l }
    ensures { IsTrue result ↔ IsCentre l (point_of c) }
{
    if !is_within(c, 2 << l) {
        return false;
    }
    let j = power(c);
    if j > l as u32 {
        return false;
    }
    j > 0 || c.x % 2 + c.y % 2 + c.z % 2 == 3
}

/// A diamond's centre in units: a unit has 2^power half-units, and the cube's side has `side` units.
#[derive(Clone, Copy)]
pub(crate) struct Scale {
    pub(crate) power: u32,
    pub(crate) side: u32,
    pub(crate) point: Half,
}

/// The greatest unit in which the centre is whole.
#[inline]
pub(crate) fn scale_of(c: Half, l: u8) -> Scale
    requires bound { IsBound l }
    requires centre { IsCentre l (point_of c) }
    ensures scale { IsScale l (point_of c) result.power result.side (point_of result.point) }
    ensures power { result.power ≤ l }
    ensures side { result.side ≤ 2147483648 }
    ensures within { IsWithin result.side (point_of result.point) }
    ensures even { result.side % 2 ≡ 0 }
    ensures some { 0 < long_axes (point_of result.point) }
{
    let power = power(c);
    let side: u32 = 2 << (l - power as u8);
    Scale {
        power,
        side,
        point: in_units(c, power),
    }
}

/// The level of a diamond's members. Exactly the centres above the last level have whole coordinates.
pub fn level(c: Half, l: u8) -> u8
    requires bound { IsBound l }
    requires centre { IsCentre l (point_of c) }
    ensures level { result ≡ level_of l (point_of c) }
    ensures most { result ≤ 3 * l }
    ensures whole { result < 3 * l ↔ IsWhole (point_of c) }
{
    let v = scale_of(c, l);
    3 * (l - v.power as u8) + (3 - long_axes(v.point) as u8)
}
