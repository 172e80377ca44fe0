// Steps along the axes from a point in units. The six directions are counted from 0: x, y, z forwards, then z, y, x backwards.
ghost use Rattle.std.specs.Prelude.{◌≡◌, ◌<◌, ◌≤◌, ◌+◌, ◌^◌};
ghost use Rattle.tpz_base.specs.Points.{point_scale};
ghost use Rattle.tetra_name.specs.Names.{IsWithin, point_of};
ghost use Rattle.tetra_name.specs.Steps.{coordinate, finish, finish_point, is_allowed, long_axes, moved, rest_of, start, start_point, IsScalable};

use crate::shape::Half;

/// The coordinate that a step in this direction changes.
#[inline]
#[tactic(auto, unfolding(crate::specs::Steps::coordinate))]
pub(crate) fn coordinate(u: Half, d: u8) -> u32
    requires { d < 6 }
    ensures { result ≡ coordinate d (point_of u) }
{
    match d {
        0 | 5 => u.x,
        1 | 4 => u.y,
        _ => u.z,
    }
}

/// Whether a step from u in this direction belongs to a member.
#[inline]
#[tactic(auto, unfolding(crate::specs::Steps::is_allowed, crate::specs::Steps::allows, crate::specs::Steps::is_forwards))]
pub(crate) fn is_allowed(u: Half, side: u32, d: u8) -> bool
    requires { d < 6 }
    ensures { result ≡ is_allowed side (point_of u) d }
{
    let n = coordinate(u, d);
    if n % 2 == 1 {
        if d < 3 { n % 4 == 1 } else { n % 4 == 3 }
    } else if d < 3 {
        n < side
    } else {
        0 < n
    }
}

/// On how many axes the bisected edge runs.
#[inline]
#[tactic(auto, unfolding(crate::specs::Steps::long_axes))]
pub(crate) fn long_axes(u: Half) -> u32
    ensures axes { result ≡ long_axes (point_of u) }
    ensures few { result ≤ 3 }
{
    u.x % 2 + (u.y % 2 + u.z % 2)
}

/// The point s units further, and not below 0.
#[inline]
#[tactic(auto, unfolding(crate::specs::Steps::moved))]
pub(crate) fn moved(u: Half, d: u8, s: u32) -> Half
    requires known { d < 6 }
    requires step { s ≤ 2 }
    requires within { IsWithin 2147483652 (point_of u) }
    ensures moved { point_of result ≡ moved s d (point_of u) }
    ensures x { result.x ≤ u.x + s }
    ensures y { result.y ≤ u.y + s }
    ensures z { result.z ≤ u.z + s }
{
    let Half { x, y, z } = u;
    match d {
        0 => Half { x: x + s, y, z },
        1 => Half { x, y: y + s, z },
        2 => Half { x, y, z: z + s },
        3 => Half {
            x,
            y,
            z: z.saturating_sub(s),
        },
        4 => Half {
            x,
            y: y.saturating_sub(s),
            z,
        },
        _ => Half {
            x: x.saturating_sub(s),
            y,
            z,
        },
    }
}

/// Where the bisected edge starts on one axis: at the multiple of four beside an odd coordinate.
#[inline]
#[tactic(auto, unfolding(crate::specs::Steps::start))]
fn start(n: u32) -> u32
    requires { n + 1 < 2 ^ 32 }
    ensures start { result ≡ start n }
    ensures near { result ≤ n + 1 }
{
    if n % 2 == 0 {
        n
    } else if n % 4 == 1 {
        n - 1
    } else {
        n + 1
    }
}

/// Where the bisected edge ends on one axis: at the other even number beside an odd coordinate.
#[inline]
#[tactic(auto, unfolding(crate::specs::Steps::finish))]
fn finish(n: u32) -> u32
    requires { n + 1 < 2 ^ 32 }
    ensures { result ≡ finish n }
{
    if n % 2 == 0 {
        n
    } else if n % 4 == 1 {
        n + 1
    } else {
        n - 1
    }
}

/// Where the bisected edge through u starts.
#[inline]
#[tactic(auto, unfolding(crate::specs::Steps::start_point))]
pub(crate) fn start_point(u: Half) -> Half
    requires { IsWithin 2147483648 (point_of u) }
    ensures start { point_of result ≡ start_point (point_of u) }
    ensures x { result.x ≤ u.x + 1 }
    ensures y { result.y ≤ u.y + 1 }
    ensures z { result.z ≤ u.z + 1 }
{
    Half {
        x: start(u.x),
        y: start(u.y),
        z: start(u.z),
    }
}

/// Where the bisected edge through u ends.
#[inline]
#[tactic(auto, unfolding(crate::specs::Steps::finish_point))]
pub(crate) fn finish_point(u: Half) -> Half
    requires { IsWithin 2147483648 (point_of u) }
    ensures { point_of result ≡ finish_point (point_of u) }
{
    Half {
        x: finish(u.x),
        y: finish(u.y),
        z: finish(u.z),
    }
}

/// The same point in half-units, where a unit has 2^j of them.
#[inline]
pub(crate) fn scaled(u: Half, j: u32) -> Half
    requires power { j < 32 }
    requires scalable { IsScalable j (point_of u) }
    ensures { point_of result ≡ point_scale (2 ^ j) (point_of u) }
{
    Half {
        x: u.x << j,
        y: u.y << j,
        z: u.z << j,
    }
}

/// The direction of the bisected edge on the axis that neither direction is on.
#[inline]
#[tactic(auto, unfolding(crate::specs::Steps::rest_of))]
pub(crate) fn rest_of(u: Half, q: (u8, u8)) -> u8
    requires first { q.0 < 6 }
    requires second { q.1 < 6 }
    ensures rest { result ≡ rest_of (point_of u) q }
    ensures known { result < 6 }
{
    let axis = 3_u8
        .saturating_sub(q.0.min(5 - q.0))
        .saturating_sub(q.1.min(5 - q.1));
    if coordinate(u, axis) % 4 == 1 {
        axis
    } else {
        5 - axis
    }
}
