// Worked meshes through each call, and the corners of the largest cube.
ghost use Rattle.std.specs.Prelude.{◌≡◌};

use assign::{Leaves, leaf_of, nearest, root_of, side};
use diamond_graph::{Closing, Graph};
use std::alloc::{AllocError, Global};
use std::process::Abort;
use std::test::Fail;
use tetra_name::{Half, Tet, child, is_centre, level, root};
use tpz_base::{Point, Tri};
use tri_stream::Streams;

/// A centre in half-units.
fn half(x: u32, y: u32, z: u32) -> Half {
    Half { x, y, z }
}

/// A triangle in the plane z = 0.
fn flat(a: (u32, u32), b: (u32, u32), c: (u32, u32)) -> Tri {
    Tri {
        a: Point {
            x: a.0,
            y: a.1,
            z: 0,
        },
        b: Point {
            x: b.0,
            y: b.1,
            z: 0,
        },
        c: Point {
            x: c.0,
            y: c.1,
            z: 0,
        },
    }
}

/// The graph of a diamond and its ancestors.
fn graph_of(rt: &impl Abort, alloc: Global, l: u8, centre: Half) -> Result<Graph, AllocError> {
    assert!(rt; 1 <= l && l <= 30);
    assert!(rt; is_centre(centre, l));
    assert!(rt; level(centre, l) < 3 * l);
    let mut closing = Closing::new(alloc, l);
    assert_eq!(rt; closing.add_closed(centre), Ok(()));
    closing.seal()
}

#[test]
fn triangles_of_worked_meshes_come_to_their_leaves(rt: HostRuntime) -> Result<(), Fail> {
    let alloc = rt.alloc();
    let whole = Closing::new(alloc, 2).seal()?;
    let split = graph_of(&rt, alloc, 2, half(4, 4, 0))?;
    for (t, slot, centre) in [
        (flat((0, 0), (4, 0), (2, 2)), 0, half(4, 0, 0)),
        (flat((4, 0), (4, 4), (2, 2)), 0, half(8, 4, 0)),
        (flat((4, 4), (0, 4), (2, 2)), 2, half(4, 8, 0)),
        (flat((0, 4), (0, 0), (2, 2)), 2, half(0, 4, 0)),
    ] {
        assert_eq!(rt; root_of(&t), slot);
        assert_eq!(rt;
            leaf_of(&whole, &t),
            Tet {
                centre: half(4, 4, 4),
                slot
            }
        );
        assert_eq!(rt; leaf_of(&split, &t).centre, centre);
    }
    let deep = graph_of(&rt, alloc, 1, half(2, 0, 0))?;
    let on_plane = flat((0, 0), (2, 0), (2, 2));
    assert_eq!(rt;
        leaf_of(&deep, &on_plane),
        Tet {
            centre: half(3, 1, 1),
            slot: 4
        }
    );
    Ok(())
}

/// The tetrahedron of the last level that a triangle comes to.
fn last_of(rt: &impl Abort, t: &Tri, l: u8) -> Tet {
    assert!(rt; 1 <= l && l <= 30);
    let mut name = root(root_of(t), l);
    'levels: for _ in 0..3 * l {
        if level(name.centre, l) < 3 * l {
            name = child(name, side(name, t, l), l);
        }
    }
    name
}

#[test]
fn corners_of_the_largest_cube_come_to_its_outermost_tetrahedra(rt: HostRuntime) {
    let far: u32 = 1 << 30;
    for (x, y, z, centre) in [
        (0, 0, 0, half(1, 1, 1)),
        (far, far, far, half(2 * far - 1, 2 * far - 1, 2 * far - 1)),
        (far, 0, 0, half(2 * far - 1, 1, 1)),
        (0, far, far, half(1, 2 * far - 1, 2 * far - 1)),
    ] {
        let p = Point { x, y, z };
        let t = Tri { a: p, b: p, c: p };
        assert_eq!(rt; last_of(&rt, &t, 30).centre, centre);
    }
}

#[test]
fn the_nearest_member_is_the_lowest_of_those_that_tie(rt: HostRuntime) {
    let face = half(4, 4, 0);
    assert!(rt; is_centre(face, 2));
    for (t, slot) in [
        (flat((0, 0), (4, 0), (2, 2)), 0),
        (flat((4, 4), (0, 4), (2, 2)), 1),
        (flat((4, 0), (0, 4), (2, 2)), 0),
    ] {
        assert_eq!(rt; nearest(face, &t, 2), slot);
    }
}

#[test]
fn a_table_gives_what_was_set_last(rt: HostRuntime) -> Result<(), Fail> {
    let mut streams = Streams::new(rt.alloc(), 0, 2);
    let (first, second) = (streams.make()?, streams.make()?);
    let name = Tet {
        centre: half(4, 4, 4),
        slot: 3,
    };
    let other = Tet {
        centre: half(4, 4, 4),
        slot: 4,
    };
    let mut leaves = Leaves::new(rt.alloc());
    assert_eq!(rt; leaves.stream(name), None);
    assert_eq!(rt; leaves.set(name, first), Ok(()));
    assert_eq!(rt; leaves.set(other, first), Ok(()));
    assert_eq!(rt; leaves.set(name, second), Ok(()));
    assert_eq!(rt; leaves.stream(name), Some(second));
    assert_eq!(rt; leaves.take(name), Some(second));
    assert_eq!(rt; leaves.take(name), None);
    assert_eq!(rt; leaves.stream(other), Some(first));
    Ok(())
}
