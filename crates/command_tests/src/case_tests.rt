// What is found in cases that aren't so.
use crate::failures;
use std::test::Fail;

const OTHER_CASES: &str = "\
line
case a triangle
mesh 3 1/0 0 0/4 0 0/0 4 0/3 0 1 2/
run finest
line tpz: input failed
notes
parts 2
mesh_part 0 0 0/
mesh_part 1 0 0/
faces 0 2
closed 0
left square
left_bytes 1
unused input
work_room none
jump";

const FOUND: &str = "\
: line: no step
a triangle: line tpz: input failed: there is \n\
a triangle: notes: there is finest tris 1 dropped 0 vertices 3\n
a triangle: parts 2: there are 1
a triangle: mesh_part 0 0 0/: there is ply\nformat ascii 1.0\ncomment tpz digits 0\nelement vertex 3\nproperty int x\nproperty int y\nproperty int z\nelement face 1\nproperty list uchar int vertex_indices\nend_header\n0 0 0\n4 0 0\n0 4 0\n3 0 1 2\n
a triangle: mesh_part 1 0 0/: no such part
a triangle: faces 0 2: it isn't so
a triangle: closed 0: it isn't so
a triangle: left square: there is \n\
a triangle: left_bytes 1: there are 0
a triangle: unused input: it isn't so
a triangle: work_room none: no step
a triangle: jump: no step
";

#[test]
fn each_step_that_is_not_so_is_found(rt: HostRuntime) -> Result<(), Fail> {
    assert_eq!(rt; failures(rt.alloc(), OTHER_CASES)?.as_str(), FOUND);
    Ok(())
}
