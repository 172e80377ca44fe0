// The first triangle of the least mesh.
use super::*;
use tpz_base::{Point, Tri};

#[test]
fn the_least_mesh_has_its_triangles_in_order(rt: HostRuntime) {
    let count = gen_count(1);
    assert_eq!(rt; count, 12);
    assert_eq!(rt;
        gen_tri(1, 0),
        Tri {
            a: Point { x: 0, y: 11, z: 22 },
            b: Point {
                x: 25,
                y: 67,
                z: 78
            },
            c: Point { x: 5, y: 80, z: 27 }
        }
    );
}
