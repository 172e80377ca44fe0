// Parts that are written.
use cut_export::write_mesh;
use patch_view::PatchView;
use std::test::Fail;
use tetra_name::root;
use tpz_base::{Point, Tri};
use tpz_io::{MemOut, Out};

const A: Point = Point { x: 0, y: 0, z: 0 };

const B: Point = Point { x: 4, y: 0, z: 0 };

const C: Point = Point {
    x: 0,
    y: 1073741824,
    z: 7,
};

const FIRST: [Tri; 1] = [Tri { a: A, b: B, c: C }];

const SECOND: [Tri; 2] = [Tri { a: C, b: B, c: A }, Tri { a: B, b: B, c: C }];

// A coordinate is at most 2^30, and the least coordinates are at most 2^40 away from 0.
const LOW: [i64; 3] = [-1099511627776, 1099511627776, -7];

const TEXT: &str =
    "ply\nformat ascii 1.0\ncomment tpz digits 9\nelement vertex 3\nproperty int x\nproperty int y\nproperty int z\nelement face 3\nproperty list uchar int vertex_indices\nend_header\n-1099511627776 1099511627776 -7\n-1099511627772 1099511627776 -7\n-1099511627776 1100585369600 0\n3 0 1 2\n3 2 1 0\n3 1 1 2\n";

#[test]
fn views_are_written_one_after_another(rt: HostRuntime) -> Result<(), Fail> {
    let alloc = rt.alloc();
    let views = [
        PatchView {
            tet: root(0, 1),
            tris: &FIRST,
        },
        PatchView {
            tet: root(1, 1),
            tris: &[],
        },
        PatchView {
            tet: root(2, 1),
            tris: &SECOND,
        },
    ];
    let mut out = MemOut::new(alloc, 4096, Vec::new(alloc))?;
    assert_eq!(rt; write_mesh(alloc, &views, LOW, 9, &mut out), Ok(()));
    assert_eq!(rt; out.part_count(), 1);
    assert_eq!(rt; out.part_at(0), TEXT.as_bytes());
    Ok(())
}
