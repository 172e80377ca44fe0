// Worked lists, a flat grid against a plain computation, and a closed grid of some hundred triangles.
ghost use Rattle.std.specs.Prelude.{◌≡◌, true, false, IfOk};
ghost use Rattle.tpz_base.specs.Reach.{IsNear};

use edge_collapse::{Bench, Key, key, legal};
use patch_mesh::Workshop;
use std::alloc::{AllocError, Global};
use std::process::Abort;
use std::test::Fail;
use tpz_base::{Move, Point, Tri, max_dist, whole};

const A: Point = Point { x: 0, y: 0, z: 0 };

const B: Point = Point { x: 4, y: 0, z: 0 };

const C: Point = Point { x: 4, y: 4, z: 0 };

const D: Point = Point { x: 0, y: 4, z: 0 };

const M: Point = Point { x: 2, y: 2, z: 0 };

/// The cells of the flat grid along one axis.
const SIDE: u32 = 4;

/// Whether the coordinates are at most 2^30.
fn is_near(p: Point) -> bool
    ensures { result ≡ true → IsNear p }
{
    p.x <= 1 << 30 && p.y <= 1 << 30 && p.z <= 1 << 30
}

/// Adds a triangle that a test has made.
fn add(rt: &impl Abort, bench: &mut Bench, t: Tri)
    requires { bench.old.simplified ≡ false }
    ensures { bench.new.simplified ≡ false }
{
    assert!(rt; whole(&t));
    assert!(rt; is_near(t.a));
    assert!(rt; is_near(t.b));
    assert!(rt; is_near(t.c));
    assert!(rt; !bench.shop().is_full());
    bench.push_tri(t);
}

// Each vertex is inner, but each collapse would lose two vertices.
#[test]
fn a_triangle_and_its_reverse_stay(rt: HostRuntime) -> Result<(), Fail> {
    let mut bench = Bench::new(rt.alloc(), 2)?;
    bench.push_tri(Tri { a: A, b: B, c: C });
    bench.push_tri(Tri { a: A, b: C, c: B });
    assert!(rt; !bench.shop().is_outer(A));
    assert!(rt; !legal(bench.shop(), A, B));
    bench.simplify();
    assert_eq!(rt; bench.shop().len(), 2);
    assert_eq!(rt; bench.moves().len(), 0);
    Ok(())
}

// The four pairs from the middle of a square tie but for their ends, so the middle goes to the least corner.
#[test]
fn the_middle_of_a_square_goes_to_its_least_corner(rt: HostRuntime) -> Result<(), Fail> {
    let mut bench = Bench::new(rt.alloc(), 4)?;
    bench.push_tri(Tri { a: A, b: B, c: M });
    bench.push_tri(Tri { a: B, b: C, c: M });
    bench.push_tri(Tri { a: C, b: D, c: M });
    bench.push_tri(Tri { a: D, b: A, c: M });
    assert!(rt; legal(bench.shop(), M, C));
    let cost = key(bench.shop(), M, C);
    assert_eq!(rt;
        cost,
        Key {
            sweep: 0,
            length: 8,
            from: M,
            to: C
        }
    );
    bench.simplify();
    assert_eq!(rt; bench.shop().len(), 2);
    assert_eq!(rt; bench.moves(), [Move { from: M, to: A }].as_slice());
    assert_eq!(rt; max_dist(M, A), 2);
    assert_eq!(rt; bench.shop().peak(), 4);
    bench.clear();
    assert!(rt; bench.shop().is_empty());
    assert_eq!(rt; bench.moves().len(), 0);
    Ok(())
}

/// Twice the signed area of a triangle of the plane.
fn area(t: &Tri) -> i64 {
    let ux = i64::from(t.b.x).wrapping_sub(i64::from(t.a.x));
    let uy = i64::from(t.b.y).wrapping_sub(i64::from(t.a.y));
    let vx = i64::from(t.c.x).wrapping_sub(i64::from(t.a.x));
    let vy = i64::from(t.c.y).wrapping_sub(i64::from(t.a.y));
    ux.wrapping_mul(vy).wrapping_sub(uy.wrapping_mul(vx))
}

fn moved(p: Point, u: Point, w: Point) -> Point {
    if p == u { w } else { p }
}

fn moved_tri(t: &Tri, u: Point, w: Point) -> Tri {
    Tri {
        a: moved(t.a, u, w),
        b: moved(t.b, u, w),
        c: moved(t.c, u, w),
    }
}

fn has(t: &Tri, p: Point) -> bool {
    t.a == p || t.b == p || t.c == p
}

fn collapsed(alloc: Global, tris: &[Tri], u: Point, w: Point) -> Result<Vec<Tri>, AllocError> {
    let mut left = Vec::new(alloc);
    for t in tris {
        let t = moved_tri(t, u, w);
        if whole(&t) {
            left.push(t)?;
        }
    }
    Ok(left)
}

/// The rule, for a grid in the plane: its border never changes.
fn may_go(alloc: Global, tris: &[Tri], u: Point, w: Point) -> Result<bool, AllocError> {
    if u.x == 0 || u.x == SIDE || u.y == 0 || u.y == SIDE {
        return Ok(false);
    }
    let left = collapsed(alloc, tris, u, w)?;
    let turned = |t: &Tri| {
        let t2 = moved_tri(t, u, w);
        has(t, u) && whole(&t2) && area(t) != 0 && (area(t) > 0) != (area(&t2) > 0)
    };
    let flat = |t: &Tri| has(t, u)
        && area(t) != 0
        && whole(&moved_tri(t, u, w))
        && area(&moved_tri(t, u, w)) == 0;
    let kept = |v: Point| v == u || left.iter().any(|t| has(t, v));
    Ok(
        !tris.iter().any(|t| turned(t) || flat(t))
            && tris.iter().all(|t| kept(t.a) && kept(t.b) && kept(t.c)),
    )
}

/// The squared length, then the ends: nothing is swept in the plane.
fn cost(u: Point, w: Point) -> (u32, Point, Point) {
    let x = u.x.abs_diff(w.x);
    let y = u.y.abs_diff(w.y);
    (x.wrapping_mul(x).wrapping_add(y.wrapping_mul(y)), u, w)
}

/// Every pair of corners of one triangle, by its cost.
fn pairs(alloc: Global, tris: &[Tri]) -> Result<Vec<(u32, Point, Point)>, AllocError> {
    let mut all = Vec::new(alloc);
    for t in tris {
        for (u, w) in [(t.a, t.b), (t.b, t.c), (t.c, t.a)] {
            all.push(cost(u, w))?;
            all.push(cost(w, u))?;
        }
    }
    all.sort()?;
    Ok(all)
}

/// The first pair by cost that may collapse.
fn first_pair(alloc: Global, tris: &[Tri]) -> Result<Option<(Point, Point)>, AllocError> {
    for (_, u, w) in pairs(alloc, tris)? {
        if may_go(alloc, tris, u, w)? {
            return Ok(Some((u, w)));
        }
    }
    Ok(None)
}

/// A grid of squares in the plane, each of two triangles.
fn flat_grid(alloc: Global) -> Result<Vec<Tri>, AllocError> {
    let mut tris = Vec::new(alloc);
    for x in 0..SIDE {
        for y in 0..SIDE {
            let a = Point { x, y, z: 0 };
            let b = Point { x: x + 1, y, z: 0 };
            let c = Point {
                x: x + 1,
                y: y + 1,
                z: 0,
            };
            let d = Point { x, y: y + 1, z: 0 };
            tris.push(Tri { a, b, c })?;
            tris.push(Tri { a, b: c, c: d })?;
        }
    }
    Ok(tris)
}

/// Every point of the grid, ascending, as a move to itself.
fn grid_points(alloc: Global) -> Result<Vec<Move>, AllocError> {
    let mut moves = Vec::new(alloc);
    for x in 0..SIDE + 1 {
        for y in 0..SIDE + 1 {
            let v = Point { x, y, z: 0 };
            moves.push(Move { from: v, to: v })?;
        }
    }
    Ok(moves)
}

/// Puts `w` in the place of `u`, in the triangles and in the ends of the moves.
fn collapse(
    alloc: Global,
    tris: &mut Vec<Tri>,
    moves: &mut [Move],
    u: Point,
    w: Point,
) -> Result<(), AllocError> {
    *tris = collapsed(alloc, tris, u, w)?;
    for m in moves.iter_mut() {
        m.to = moved(m.to, u, w);
    }
    Ok(())
}

/// Collapses until at most `target` triangles are left or no pair may collapse.
fn collapse_to(
    alloc: Global,
    tris: &mut Vec<Tri>,
    moves: &mut [Move],
    target: usize,
) -> Result<(), AllocError> {
    for _ in 0..target {
        if tris.len() <= target {
            return Ok(());
        }
        let Some((u, w)) = first_pair(alloc, tris)? else {
            return Ok(());
        };
        collapse(alloc, tris, moves, u, w)?;
    }
    Ok(())
}

/// A bench with these triangles.
fn bench_with(rt: &impl Abort, alloc: Global, tris: &[Tri]) -> Result<Bench, AllocError>
    ensures { IfOk result (λ bench. bench.simplified ≡ false) }
{
    let mut bench = Bench::new(alloc, 1024)?;
    for t in tris {
        add(rt, &mut bench, *t);
    }
    Ok(bench)
}

/// The triangles on a bench.
fn list_of(alloc: Global, bench: &Bench) -> Result<Vec<Tri>, AllocError> {
    let mut tris = Vec::new(alloc);
    for i in 0..bench.shop().len() {
        tris.push(bench.shop().tri(i))?;
    }
    Ok(tris)
}

// Most pairs tie, so the order of the ends decides each collapse.
#[test]
fn a_flat_grid_agrees_with_a_plain_computation(rt: HostRuntime) -> Result<(), Fail> {
    let alloc = rt.alloc();
    let mut tris = flat_grid(alloc)?;
    let mut moves = grid_points(alloc)?;
    let mut bench = bench_with(&rt, alloc, &tris)?;
    collapse_to(alloc, &mut tris, &mut moves, 16)?;
    moves.retain(|m| m.from != m.to);
    bench.simplify();
    assert_eq!(rt; tris.len(), 16);
    assert_eq!(rt; list_of(alloc, &bench)?.as_slice(), tris.as_slice());
    assert_eq!(rt; bench.moves(), moves.as_slice());
    Ok(())
}

/// The cells of the closed grid along one axis.
const CELLS: u32 = 5;

/// A point of the surface of a cube, a little off its place.
fn bumped(i: u32, j: u32, k: u32) -> Point {
    let pairs = i
        .wrapping_mul(j)
        .wrapping_mul(31)
        .wrapping_add(j.wrapping_mul(k).wrapping_mul(17))
        .wrapping_add(k.wrapping_mul(i).wrapping_mul(13));
    let b = pairs
        .wrapping_add(i.wrapping_mul(7))
        .wrapping_add(j.wrapping_mul(5))
        .wrapping_add(k.wrapping_mul(3));
    Point {
        x: i.wrapping_mul(64).wrapping_add(b % 33),
        y: j.wrapping_mul(64).wrapping_add(b.wrapping_add(11) % 33),
        z: k.wrapping_mul(64).wrapping_add(b.wrapping_add(22) % 33),
    }
}

/// The point at (p, q) of the near or the far side across an axis.
fn side_point(axis: u8, depth: u32, p: u32, q: u32) -> Point {
    match axis {
        0 => bumped(depth, p, q),
        1 => bumped(q, depth, p),
        _ => bumped(p, q, depth),
    }
}

/// The triangles of one side.
fn add_side(tris: &mut Vec<Tri>, axis: u8, depth: u32) -> Result<(), AllocError> {
    for p in 0..CELLS {
        for q in 0..CELLS {
            let a = side_point(axis, depth, p, q);
            let b = side_point(axis, depth, p + 1, q);
            let c = side_point(axis, depth, p + 1, q + 1);
            let d = side_point(axis, depth, p, q + 1);
            if depth == 0 {
                tris.push(Tri { a, b: c, c: b })?;
                tris.push(Tri { a, b: d, c })?;
            } else {
                tris.push(Tri { a, b, c })?;
                tris.push(Tri { a, b: c, c: d })?;
            }
        }
    }
    Ok(())
}

/// The surface of a cube.
fn closed_grid(alloc: Global) -> Result<Vec<Tri>, AllocError> {
    let mut tris = Vec::new(alloc);
    for axis in 0..3 {
        add_side(&mut tris, axis, 0)?;
        add_side(&mut tris, axis, CELLS)?;
    }
    Ok(tris)
}

/// A sum that depends on each coordinate and its place.
fn weight(p: Point, q: Point, r: Point) -> u32 {
    p.x.wrapping_add(q.y.wrapping_mul(3))
        .wrapping_add(r.z.wrapping_mul(5))
}

// The numbers come from a program of its own that was written from the rule.
#[test]
fn a_closed_grid_of_300_triangles_is_halved(rt: HostRuntime) -> Result<(), Fail> {
    let alloc = rt.alloc();
    let tris = closed_grid(alloc)?;
    assert_eq!(rt; tris.len(), 300);
    let mut bench = bench_with(&rt, alloc, &tris)?;
    bench.simplify();
    assert_eq!(rt; bench.shop().peak(), 300);
    let mut moved_to: u32 = 0;
    for m in bench.moves() {
        moved_to = moved_to
            .wrapping_add(weight(m.from, m.from, m.from))
            .wrapping_add(weight(m.to, m.to, m.to));
    }
    assert_eq!(rt; (bench.moves().len(), moved_to), (75, 229433));
    let mut left: u32 = 0;
    let mut place: u32 = 0;
    for t in &list_of(alloc, &bench)? {
        place = place.wrapping_add(1);
        left = left.wrapping_add(weight(t.a, t.b, t.c).wrapping_mul(place));
    }
    assert_eq!(rt; (bench.shop().len(), left), (150, 20036632));
    Ok(())
}

// The corners at a vertex are met once each, and then round; a collapse leaves those of the triangles that stay.
#[test]
fn corners_are_met_once_and_round(rt: HostRuntime) -> Result<(), Fail> {
    let mut shop = Workshop::new(rt.alloc(), 2)?;
    shop.push_tri(Tri { a: A, b: B, c: M });
    shop.push_tri(Tri { a: B, b: C, c: M });
    assert_eq!(rt; shop.corner_of(M), Some(2));
    assert_eq!(rt; shop.next_corner(2), 5);
    assert_eq!(rt; shop.next_corner(5), 2);
    assert_eq!(rt; shop.corner_tri(5), Tri { a: B, b: C, c: M });
    shop.replace(M, A);
    assert_eq!(rt; shop.corner_of(M), None);
    assert_eq!(rt; shop.corner_of(A), Some(5));
    assert_eq!(rt; shop.next_corner(5), 5);
    assert_eq!(rt; shop.corner_tri(5), Tri { a: B, b: C, c: A });
    Ok(())
}
