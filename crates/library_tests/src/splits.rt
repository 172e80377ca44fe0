// A split over a blob in memory, with ample memory.
use assign::{Leaves, leaf_of};
use diamond_graph::Closing;
use split_pass::split;
use std::test::Fail;
use tetra_name::Half;
use tpz_base::{Point, Tri};
use tpz_io::MemBlob;
use tri_stream::Streams;

const TWICE: Tri = Tri {
    a: Point { x: 0, y: 0, z: 0 },
    b: Point { x: 2, y: 0, z: 0 },
    c: Point { x: 2, y: 2, z: 0 },
};

// Two triangles at one place, and a cap of one: every diamond above the last level on their path is split, and their leaf has both.
#[test]
fn two_triangles_at_one_place_are_split_to_the_last_level(rt: HostRuntime) -> Result<(), Fail> {
    let alloc = rt.alloc();
    let mut blob = MemBlob::new(alloc, b"", 65_536, [].to_vec(alloc)?)?;
    let mut streams = Streams::new(alloc, 0, 1);
    let whole = streams.make()?;
    assert_eq!(rt; streams.append(&mut blob, whole, TWICE), Ok(()));
    assert_eq!(rt; streams.append(&mut blob, whole, TWICE), Ok(()));
    let made = split(
        &mut streams,
        &mut blob,
        whole,
        Closing::new(alloc, 1),
        Leaves::new(alloc),
        1,
    );
    match made {
        Ok(made) => {
            assert_eq!(rt; made.graph.len(), 4);
            assert!(rt; made.graph.has(Half { x: 2, y: 2, z: 2 }));
            assert!(rt; made.graph.has(Half { x: 2, y: 0, z: 2 }));
            assert!(rt; made.graph.has(Half { x: 2, y: 2, z: 0 }));
            assert!(rt; made.graph.has(Half { x: 2, y: 0, z: 0 }));
            let leaf = leaf_of(&made.graph, &TWICE);
            match made.leaves.stream(leaf) {
                Some(id) => assert_eq!(rt; streams.count(id), 2),
                None => assert!(rt; false),
            }
        }
        Err(_) => assert!(rt; false),
    }
    Ok(())
}
