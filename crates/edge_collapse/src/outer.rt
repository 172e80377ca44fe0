// Which vertices of a list lie on an edge whose signed sum isn't 0, for all vertices at once.
//
// For each vertex a walk of its star adds up the signed sums of the edges from it, in a table by the numbers of the other ends; a second walk
// asks whether one isn't 0, and a third takes away what the first one added.
ghost use Rattle.std.specs.Prelude.{◌≡◌, ◌≤◌, ◌<◌, ◌+ℤ◌, ◌||◌, not, length, map, pos, slice_set, unsigned_abs, vec_len, vec_capacity};
ghost use Rattle.std.specs.List.{slice_index_or};
ghost use Rattle.std.specs.Ordering.{int_eq};
ghost use Rattle.tpz_base.specs.Meshes.{is_outer};
ghost use Rattle.patch_mesh.specs.Slots.{point_at};
ghost use Rattle.edge_collapse.specs.Balances.{balance_at, sums_at, zeros};

use patch_mesh::Workshop;
use tpz_base::Point;

/// Adds `by` to the sum towards the vertex with the number `x`.
fn shift(balance: &mut Vec<i32>, x: u32, by: i32)
    requires within { x < length balance.old.items }
    requires small { unsigned_abs (balance_at balance.old.items x) ≤ 16777216 }
    requires step { unsigned_abs by ≤ 1 }
    ensures items { balance.new.items ≡ slice_set balance.old.items x (balance_at balance.old.items x +ℤ by) }
    ensures capacity { vec_capacity balance.old ≤ vec_capacity balance.new }
{
    balance[x as usize] += by;
}

/// Adds each triangle at `p`, the vertex with the number `v`: an edge from `p` to its next corner, and one from its last corner to `p`.
fn add_star(list: &Workshop, balance: &mut Vec<i32>, v: u32, p: Point)
    requires vertex { v < length list.now.vertices }
    requires at { p ≡ point_at list.now.vertices v }
    requires none { balance.old.items ≡ zeros list.now.vertices }
    ensures sums { balance.new.items ≡ sums_at list.now.mesh p list.now.vertices }
    ensures capacity { vec_capacity balance.old ≤ vec_capacity balance.new }
{
    let _ = list.vertex_count();
    let mut walk = list.walk_at(v);
    while let Some(k) = list.step(p, &mut walk) {
        shift(balance, k.next, 1);
        shift(balance, k.last, -1);
    }
}

/// Takes away what `add_star` added.
fn take_star(list: &Workshop, balance: &mut Vec<i32>, v: u32, p: Point)
    requires vertex { v < length list.now.vertices }
    requires at { p ≡ point_at list.now.vertices v }
    requires sums { balance.old.items ≡ sums_at list.now.mesh p list.now.vertices }
    ensures none { balance.new.items ≡ zeros list.now.vertices }
    ensures capacity { vec_capacity balance.old ≤ vec_capacity balance.new }
{
    let _ = list.vertex_count();
    let _ = list.len();
    let mut walk = list.walk_at(v);
    while let Some(k) = list.step(p, &mut walk) {
        shift(balance, k.next, -1);
        shift(balance, k.last, 1);
    }
}

/// Whether one of two sums isn't 0.
fn is_open(balance: &[i32], next: u32, last: u32) -> bool
    requires next { next < length balance.now }
    requires last { last < length balance.now }
    ensures { result ≡ not (int_eq (balance_at balance.now next) (pos 0)) || not (int_eq (balance_at balance.now last) (pos 0)) }
{
    balance[next as usize] != 0 || balance[last as usize] != 0
}

/// Whether a triangle at `p` has an edge with the end `p` and a sum that isn't 0.
fn has_open(list: &Workshop, balance: &[i32], v: u32, p: Point) -> bool
    requires vertex { v < length list.now.vertices }
    requires at { p ≡ point_at list.now.vertices v }
    requires sums { balance.now ≡ sums_at list.now.mesh p list.now.vertices }
    ensures { result ≡ is_outer list.now.mesh p }
{
    let mut walk = list.walk_at(v);
    while let Some(k) = list.step(p, &mut walk) {
        if is_open(balance, k.next, k.last) {
            return true;
        }
    }
    false
}

/// Whether the vertex with the number `v` lies on an edge whose signed sum isn't 0. The sums are 0 before and after.
fn is_outer_at(list: &Workshop, balance: &mut Vec<i32>, v: u32) -> bool
    requires vertex { v < length list.now.vertices }
    requires none { balance.old.items ≡ zeros list.now.vertices }
    ensures value { result ≡ is_outer list.now.mesh (point_at list.now.vertices v) }
    ensures none { balance.new.items ≡ zeros list.now.vertices }
    ensures capacity { vec_capacity balance.old ≤ vec_capacity balance.new }
{
    let p = list.vertex(v);
    add_star(list, balance, v, p);
    let outer = has_open(list, balance, v, p);
    take_star(list, balance, v, p);
    outer
}

/// A sum of 0 for each vertex.
fn clear_sums(list: &Workshop, balance: &mut Vec<i32>)
    requires { length list.now.vertices ≤ vec_capacity balance.old }
    ensures none { balance.new.items ≡ zeros list.now.vertices }
    ensures capacity { vec_capacity balance.old ≤ vec_capacity balance.new }
{
    balance.clear();
    for _ in 0..list.vertex_count() {
        balance.push(0).unwrap();
    }
}

/// Whether each vertex, by its number, lies on an edge whose signed sum isn't 0. The time grows with the number of corners.
pub fn list_outer(list: &Workshop, balance: &mut Vec<i32>, outer: &mut Vec<bool>)
    requires balance_room { length list.now.vertices ≤ vec_capacity balance.old }
    requires outer_room { length list.now.vertices ≤ vec_capacity outer.old }
    ensures outer { outer.new.items ≡ map (is_outer list.now.mesh) list.now.vertices }
    ensures balance_capacity { vec_capacity balance.old ≤ vec_capacity balance.new }
    ensures outer_capacity { vec_capacity outer.old ≤ vec_capacity outer.new }
{
    clear_sums(list, balance);
    outer.clear();
    for v in 0..list.vertex_count() {
        outer.push(is_outer_at(list, balance, v)).unwrap();
    }
}
