// The parents and the kids of a diamond.
ghost use Rattle.std.specs.Prelude.{◌≡◌, ◌<◌, ◌≤◌, ◌^◌, ◌*◌, ◌+◌, ◌-◌, suc, All, length, map, filter};
ghost use Rattle.tpz_base.specs.Diamonds.{level_of};
ghost use Rattle.tpz_base.specs.Points.{point_scale};
ghost use Rattle.tpz_base.specs.Tetrahedra.{kids, parents};
ghost use Rattle.tetra_name.specs.Names.{point_of, IsBound, IsCentre, IsWithin};
ghost use Rattle.tetra_name.specs.Steps.{half_offsets, half_step, is_half, is_half_step, is_kid_step, is_parent_step, moved, step_directions};

use crate::centre::{Scale, scale_of};
use crate::direction::{coordinate, is_allowed, long_axes, moved, scaled, start_point};
use crate::shape::{Half, Halves};

/// The directions, in ascending order of the points that a step leads to.
const DIRECTIONS: [u8; 6] = [5, 4, 3, 2, 1, 0];

/// The eight cubes at an edge, by -1 or 1 on each axis in half the unit; here by 0 or 2.
const OFFSETS: [Half; 8] = [
    Half { x: 0, y: 0, z: 0 },
    Half { x: 0, y: 0, z: 2 },
    Half { x: 0, y: 2, z: 0 },
    Half { x: 0, y: 2, z: 2 },
    Half { x: 2, y: 0, z: 0 },
    Half { x: 2, y: 0, z: 2 },
    Half { x: 2, y: 2, z: 0 },
    Half { x: 2, y: 2, z: 2 },
];

/// The centres one step away along the bisected edge's axes.
#[tactic(auto, unfolding(crate::specs::Steps::is_kid_step))]
fn long_neighbours(directions: &[u8], v: Scale) -> Halves
    requires known { All (λ d. d < 6) directions.now }
    requires few { length directions.now ≤ 8 }
    requires power { v.power < 32 }
    requires side { v.side ≤ 2147483648 }
    requires within { IsWithin v.side (point_of v.point) }
    requires room { (v.side + 1) * 2 ^ v.power < 2 ^ 32 }
    ensures { map point_of result ≡ map (λ d. point_scale (2 ^ v.power) (moved 1 d (point_of v.point))) (filter (is_kid_step (point_of v.point)) directions.now) }
{
    let mut found = Halves::new();
    for d in directions {
        if coordinate(v.point, *d) % 2 == 1 {
            found.push(scaled(moved(v.point, *d, 1), v.power));
        }
    }
    found
}

/// Whether the number less 1 is from 0 to twice the side.
#[inline]
fn is_half(n: u32, side: u32) -> bool
    requires { side ≤ 1073741824 }
    ensures { result ≡ is_half side n }
{
    0 < n && n < 2 * side + 2
}

/// Whether the cube at an edge's centre at this offset lies in the whole cube.
#[inline]
#[tactic(auto, unfolding(crate::specs::Steps::is_half_step))]
fn is_half_step(u: Half, o: Half, side: u32) -> bool
    requires side { side ≤ 1073741824 }
    requires within { IsWithin side (point_of u) }
    requires offset { IsWithin 2 (point_of o) }
    ensures { result ≡ is_half_step side (point_of u) (point_of o) }
{
    let x = is_half(2 * u.x + o.x, side);
    let y = is_half(2 * u.y + o.y, side);
    let z = is_half(2 * u.z + o.z, side);
    x && (y && z)
}

/// The centre of the cube at an edge's centre at this offset, in half the unit.
#[inline]
#[tactic(auto, unfolding(crate::specs::Steps::half_step))]
fn half_step(u: Half, o: Half) -> Half
    requires within { IsWithin 1073741824 (point_of u) }
    requires offset { IsWithin 2 (point_of o) }
    ensures { point_of result ≡ half_step (point_of u) (point_of o) }
{
    Half {
        x: (2 * u.x + o.x).saturating_sub(1),
        y: (2 * u.y + o.y).saturating_sub(1),
        z: (2 * u.z + o.z).saturating_sub(1),
    }
}

/// The centres of the cubes at an edge that lie in the whole cube.
fn cubes_at_edge(offsets: &[Half], v: Scale) -> Halves
    requires offsets { All (λ o. IsWithin 2 (point_of o)) offsets.now }
    requires few { length offsets.now ≤ 8 }
    requires power { v.power < 33 }
    requires side { v.side ≤ 1073741824 }
    requires within { IsWithin v.side (point_of v.point) }
    requires lower { 1 ≤ v.power }
    requires room { 2 * v.side * 2 ^ (v.power - 1) < 2 ^ 32 }
    ensures { map point_of result ≡ map (λ o. point_scale (2 ^ (v.power - 1)) (half_step (point_of v.point) (point_of o))) (filter (λ o. is_half_step v.side (point_of v.point) (point_of o)) offsets.now) }
{
    let mut found = Halves::new();
    for o in offsets {
        if is_half_step(v.point, *o, v.side) {
            let centre = half_step(v.point, *o);
            found.push(scaled(centre, v.power - 1));
        }
    }
    found
}

/// The centres that some steps away from a point lie in the whole cube.
#[tactic(auto, unfolding(crate::specs::Steps::is_parent_step))]
fn parent_neighbours(directions: &[u8], v: Scale, from: Half, step: u32) -> Halves
    requires known { All (λ d. d < 6) directions.now }
    requires few { length directions.now ≤ 8 }
    requires power { v.power < 32 }
    requires step { step ≤ 2 }
    requires side { v.side ≤ 2147483648 }
    requires within { IsWithin v.side (point_of from) }
    requires room { (v.side + step) * 2 ^ v.power < 2 ^ 32 }
    ensures { map point_of result ≡ map (λ d. point_scale (2 ^ v.power) (moved step d (point_of from))) (filter (is_parent_step v.side (point_of v.point)) directions.now) }
{
    let mut found = Halves::new();
    let odd = long_axes(v.point) / 3;
    for d in directions {
        if is_allowed(v.point, v.side, *d) && coordinate(v.point, *d) % 2 == odd {
            found.push(scaled(moved(from, *d, step), v.power));
        }
    }
    found
}

/// The diamonds of the members' children, ascending: of a cube's centre 6, of a face's 4, of an edge's 8, or 4 on a face of the whole cube, or 2
/// on an edge of it.
#[tactic(auto, unfolding(crate::specs::Steps::step_directions, crate::specs::Steps::half_offsets))]
pub fn kids_of(c: Half, l: u8) -> Halves
    requires bound { IsBound l }
    requires centre { IsCentre l (point_of c) }
    requires level { level_of l (point_of c) < 3 * l }
    ensures kids { map point_of result ≡ kids l (point_of c) }
    ensures centres { All (λ k. IsCentre l (point_of k)) result }
    ensures level { All (λ k. level_of l (point_of k) ≡ suc (level_of l (point_of c))) result }
{
    let v = scale_of(c, l);
    if long_axes(v.point) == 1 {
        cubes_at_edge(&OFFSETS, v)
    } else {
        long_neighbours(&DIRECTIONS, v)
    }
}

/// The diamonds of the members' parents, ascending: of a cube's centre 3, but none of the whole cube's; of a face's 2, or 1 on the surface; of an
/// edge's 4, or 3 on a face of the whole cube, or 2 on an edge of it.
#[tactic(auto, unfolding(crate::specs::Steps::step_directions))]
pub fn parents_of(c: Half, l: u8) -> Halves
    requires bound { IsBound l }
    requires centre { IsCentre l (point_of c) }
    ensures parents { map point_of result ≡ parents l (point_of c) }
    ensures centres { All (λ p. IsCentre l (point_of p)) result }
    ensures level { All (λ p. level_of l (point_of c) ≡ suc (level_of l (point_of p))) result }
{
    let v = scale_of(c, l);
    if long_axes(v.point) != 3 {
        return parent_neighbours(&DIRECTIONS, v, v.point, 1);
    }
    if v.power == l as u32 {
        return Halves::new();
    }
    parent_neighbours(&DIRECTIONS, v, start_point(v.point), 2)
}
