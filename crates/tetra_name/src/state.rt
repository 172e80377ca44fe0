// A member's directions and slot from a small state of each axis: 0 and 1 where the bisected edge runs along it, forwards or backwards; 2 where a
// step either way stays in the cube; 3 where only one forwards does, 4 where only one backwards does.
ghost use Rattle.std.specs.Prelude.{◌≡◌, ◌<◌, ◌≤◌};
ghost use Rattle.tetra_name.specs.Names.{point_of};
ghost use Rattle.tetra_name.specs.States.{across, along_edge, axis_state, cube_pair, edge_axes, edge_pair, edge_pair_at, face_pair, is_upper, one, other_before, quick_count, quick_pair, quick_slot, states_of, third_direction, ways};

use crate::direction::coordinate;
use crate::shape::Half;

/// The state of an axis.
#[inline]
#[tactic(auto, unfolding(crate::specs::States::axis_state))]
fn axis_state(n: u32, side: u32) -> u32
    ensures state { result ≡ axis_state side n }
    ensures few { result < 5 }
{
    if n % 2 == 1 {
        n % 4 / 2
    } else if n == 0 {
        3
    } else if n == side {
        4
    } else {
        2
    }
}

/// The states of the three axes at a centre in units.
#[inline]
#[tactic(auto, unfolding(crate::specs::States::states_of))]
pub(crate) fn states_of(u: Half, side: u32) -> Half
    ensures states { point_of result ≡ states_of side (point_of u) }
    ensures x { result.x < 5 }
    ensures y { result.y < 5 }
    ensures z { result.z < 5 }
{
    Half {
        x: axis_state(u.x, side),
        y: axis_state(u.y, side),
        z: axis_state(u.z, side),
    }
}

/// 1 for what holds.
#[inline]
fn one(b: bool) -> u8
    ensures one { result ≡ one b }
    ensures few { result ≤ 1 }
{
    if b { 1 } else { 0 }
}

/// On how many axes the edge runs.
#[inline]
#[tactic(auto, unfolding(crate::specs::States::edge_axes))]
fn edge_axes(s: Half) -> u8
    ensures axes { result ≡ edge_axes (point_of s) }
    ensures few { result ≤ 3 }
{
    one(s.x < 2) + (one(s.y < 2) + one(s.z < 2))
}

/// How many ways a step across the edge goes.
#[inline]
#[tactic(auto, unfolding(crate::specs::States::ways))]
fn ways(s: u32) -> u8
    ensures ways { result ≡ ways s }
    ensures few { result ≤ 2 }
{
    if s == 2 { 2 } else { 1 }
}

/// The direction of the edge on an axis.
#[inline]
#[tactic(auto, unfolding(crate::specs::States::along_edge))]
fn along_edge(axis: u8, s: u32) -> u8
    requires { axis < 3 }
    ensures { result ≡ along_edge axis s }
{
    if s == 0 { axis } else { 5 - axis }
}

/// The step across the edge at this place.
#[inline]
#[tactic(auto, unfolding(crate::specs::States::across))]
fn across(axis: u8, s: u32, k: u8) -> u8
    requires { axis < 3 }
    ensures { result ≡ across axis s k }
{
    if k == 0 && s != 4 { axis } else { 5 - axis }
}

/// The direction of the edge on the axis of neither direction.
#[inline]
#[tactic(auto, unfolding(crate::specs::States::third_direction, crate::specs::States::along_edge))]
fn third_direction(s: Half, q: (u8, u8)) -> u8
    requires first { q.0 < 6 }
    requires second { q.1 < 6 }
    ensures { result ≡ third_direction (point_of s) q }
{
    let axis = 3_u8
        .saturating_sub(q.0.min(5 - q.0))
        .saturating_sub(q.1.min(5 - q.1));
    let state = coordinate(s, axis);
    if state == 0 { axis } else { 5 - axis }
}

/// 1 where a step across has another before it.
#[inline]
#[tactic(auto, unfolding(crate::specs::States::is_upper))]
fn is_upper(s: u32, d: u8) -> u8
    ensures upper { result ≡ is_upper s d }
    ensures few { result ≤ 1 }
{
    if s == 2 { one(2 < d) } else { 0 }
}

/// 1 where the other step across is before e.
#[inline]
#[tactic(auto, unfolding(crate::specs::States::other_before))]
fn other_before(s: u32, d: u8, e: u8) -> u8
    requires { d < 6 }
    ensures before { result ≡ other_before s d e }
    ensures few { result ≤ 1 }
{
    if s == 2 { one(5 - d < e) } else { 0 }
}

/// How many members are before the one that these directions tell.
#[inline]
#[tactic(auto, unfolding(crate::specs::States::quick_slot))]
pub(crate) fn quick_slot(s: Half, q: (u8, u8)) -> u8
    requires first { q.0 < 6 }
    requires second { q.1 < 6 }
    ensures { result ≡ quick_slot (point_of s) q }
{
    let rest = third_direction(s, q);
    let a = coordinate(s, q.0);
    let b = coordinate(s, q.1);
    let axes = edge_axes(s);
    if axes == 3 {
        2 * (one(q.1 < q.0) + one(rest < q.0)) + one(rest < q.1)
    } else if axes == 2 {
        ways(b) * one(rest < q.0) + is_upper(b, q.1)
    } else {
        ways(b) * is_upper(a, q.0)
            + ways(a) * (one(q.1 < q.0) + other_before(b, q.1, q.0))
            + is_upper(b, q.1)
    }
}

/// A cube's members by the directions of its diagonal: eight times six.
const CUBE_PAIRS: [(u8, u8); 48] = [
    (0, 1),
    (0, 2),
    (1, 0),
    (1, 2),
    (2, 0),
    (2, 1),
    (1, 2),
    (1, 5),
    (2, 1),
    (2, 5),
    (5, 1),
    (5, 2),
    (0, 2),
    (0, 4),
    (2, 0),
    (2, 4),
    (4, 0),
    (4, 2),
    (2, 4),
    (2, 5),
    (4, 2),
    (4, 5),
    (5, 2),
    (5, 4),
    (0, 1),
    (0, 3),
    (1, 0),
    (1, 3),
    (3, 0),
    (3, 1),
    (1, 3),
    (1, 5),
    (3, 1),
    (3, 5),
    (5, 1),
    (5, 3),
    (0, 3),
    (0, 4),
    (3, 0),
    (3, 4),
    (4, 0),
    (4, 3),
    (3, 4),
    (3, 5),
    (4, 3),
    (4, 5),
    (5, 3),
    (5, 4),
];

/// The member of a cube at a slot.
#[inline]
#[tactic(auto, unfolding(crate::specs::States::cube_pair, crate::specs::States::cube_pairs))]
fn cube_pair(s: Half, slot: u8) -> (u8, u8)
    requires x { s.x < 2 }
    requires y { s.y < 2 }
    requires z { s.z < 2 }
    requires slot { slot < 6 }
    ensures { result ≡ cube_pair (point_of s) slot }
{
    CUBE_PAIRS[6 * (s.x + 2 * s.y + 4 * s.z) as usize + slot as usize]
}

/// The member of a face at a slot: the axis and the state of the steps across, and the two directions along the edge in order.
#[inline]
#[tactic(auto, unfolding(crate::specs::States::face_pair))]
fn face_pair(axis: u8, s: u32, low: u8, high: u8, slot: u8) -> (u8, u8)
    requires { axis < 3 }
    ensures { result ≡ face_pair axis s low high slot }
{
    let each = ways(s);
    if slot < each {
        (low, across(axis, s, slot))
    } else {
        (high, across(axis, s, slot - each))
    }
}

/// The member of an edge at a slot: the two axes across it with their states.
#[inline]
#[tactic(auto, unfolding(crate::specs::States::edge_pair))]
fn edge_pair(a: u8, s: u32, b: u8, t: u32, slot: u8) -> (u8, u8)
    requires first { a < 3 }
    requires second { b < 3 }
    ensures { result ≡ edge_pair a s b t slot }
{
    let first = if s == 4 { 0 } else { ways(t) };
    let second = first + if t == 4 { 0 } else { ways(s) };
    let third = second + if t == 3 { 0 } else { ways(s) };
    if slot < first {
        (a, across(b, t, slot))
    } else if slot < second {
        (b, across(a, s, slot - first))
    } else if slot < third {
        (5 - b, across(a, s, slot - second))
    } else {
        (5 - a, across(b, t, slot - third))
    }
}

/// The directions of the member at a slot.
#[inline]
#[tactic(auto, unfolding(crate::specs::States::quick_pair, crate::specs::States::edge_axes))]
pub(crate) fn quick_pair(s: Half, slot: u8) -> (u8, u8)
    requires { edge_axes (point_of s) ≡ 3 → slot < 6 }
    ensures { result ≡ quick_pair (point_of s) slot }
{
    let axes = edge_axes(s);
    if axes == 3 {
        return cube_pair(s, slot);
    }
    if axes != 2 {
        return edge_pair_at(s, slot);
    }
    let x = along_edge(0, s.x);
    let y = along_edge(1, s.y);
    let z = along_edge(2, s.z);
    if s.x >= 2 {
        face_pair(0, s.x, y.min(z), y.max(z), slot)
    } else if s.y >= 2 {
        face_pair(1, s.y, x.min(z), x.max(z), slot)
    } else {
        face_pair(2, s.z, x.min(y), x.max(y), slot)
    }
}

/// The directions of an edge's member at a slot.
#[inline]
#[tactic(auto, unfolding(crate::specs::States::edge_pair_at))]
fn edge_pair_at(s: Half, slot: u8) -> (u8, u8)
    ensures { result ≡ edge_pair_at (point_of s) slot }
{
    if s.x < 2 {
        edge_pair(1, s.y, 2, s.z, slot)
    } else if s.y < 2 {
        edge_pair(0, s.x, 2, s.z, slot)
    } else {
        edge_pair(0, s.x, 1, s.y, slot)
    }
}

/// How many members there are.
#[inline]
#[tactic(auto, unfolding(crate::specs::States::quick_count))]
pub(crate) fn quick_count(s: Half) -> u8
    ensures { result ≡ quick_count (point_of s) }
{
    if edge_axes(s) == 3 {
        6
    } else {
        2 * (ways(s.x) * (ways(s.y) * ways(s.z)))
    }
}
