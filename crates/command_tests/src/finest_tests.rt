// What `finest` and `gen` write, and what they refuse.
use crate::failures;
use std::test::Fail;

const WRITTEN_ROOT_BY_ROOT: &str = "\
case one triangle, whose barycentre ties x and y
mesh 3 1/0 0 0/4 0 0/0 4 0/3 0 1 2/
script_fails 1
store_fails 1
run finest
line
parts 1
mesh_part 0 3 1/0 0 0/4 0 0/0 4 0/3 0 1 2/
notes finest tris 1 dropped 0 vertices 3/
unused script
unused store
case one vertex and no face
mesh 1 0/7 7 7/
script_fails 1
store_fails 1
run finest
line
parts 1
mesh_part 0 0 0/
notes finest tris 0 dropped 0 vertices 0/
unused script
unused store
case a square of four triangles
mesh 5 4/0 0 0/4 0 0/4 4 0/0 4 0/2 2 0/3 0 1 4/3 1 2 4/3 2 3 4/3 3 0 4/
script_fails 1
store_fails 1
run finest
line
parts 1
mesh_part 0 5 4/0 0 0/4 0 0/2 2 0/4 4 0/0 4 0/3 0 1 2/3 1 3 2/3 3 4 2/3 4 0 2/
notes finest tris 4 dropped 0 vertices 5/
unused script
unused store
case a square as one polygon
mesh 4 1/0 0 0/4 0 0/4 4 0/0 4 0/4 0 1 2 3/
script_fails 1
store_fails 1
run finest
line
parts 1
mesh_part 0 4 2/0 0 0/4 0 0/4 4 0/0 4 0/3 0 1 2/3 0 2 3/
notes finest tris 2 dropped 0 vertices 4/
unused script
unused store
case the widest axis, and a face that is left out
mesh 2 1/0 0 0/1073741824 0 0/3 0 1 0/
script_fails 1
store_fails 1
run finest
line
parts 1
mesh_part 0 0 0/
notes finest tris 0 dropped 1 vertices 0/
unused script
unused store
case a face with two equal indices
mesh 4 1/0 0 0/4 0 0/4 4 0/0 4 0/3 0 1 1/
script_fails 1
store_fails 1
run finest
line
parts 1
mesh_part 0 0 0/
notes finest tris 0 dropped 1 vertices 0/
unused script
unused store
case a triangle in each root, the last root's first, with coordinates below zero
mesh 8 6/-10 5 -20/-7 7 -19/-7 6 -18/-8 8 -19/-9 8 -18/-8 6 -17/-9 7 -17/-9 6 -19/3 0 6 7/3 0 5 7/3 0 4 7/3 0 3 7/3 0 2 7/3 0 1 7/
script_fails 1
store_fails 1
run finest
line
parts 1
mesh_part 0 8 6/-10 5 -20/-7 7 -19/-9 6 -19/-7 6 -18/-8 8 -19/-9 8 -18/-8 6 -17/-9 7 -17/3 0 1 2/3 0 3 2/3 0 4 2/3 0 5 2/3 0 6 2/3 0 7 2/
notes finest tris 6 dropped 0 vertices 8/
unused script
unused store";

#[test]
fn a_mesh_is_written_root_by_root(rt: HostRuntime) -> Result<(), Fail> {
    assert_eq!(rt; failures(rt.alloc(), WRITTEN_ROOT_BY_ROOT)?.as_str(), "");
    Ok(())
}

const WRITTEN_LEAF_BY_LEAF: &str = "\
case a square of four triangles, split twice
mesh 5 4/0 0 0/4 0 0/4 4 0/0 4 0/2 2 0/3 0 1 4/3 1 2 4/3 2 3 4/3 3 0 4/
script_fails 1
store_fails 1
run finest --cap 1
line
parts 1
mesh_part 0 5 4/0 0 0/4 0 0/2 2 0/4 4 0/0 4 0/3 0 1 2/3 1 3 2/3 4 0 2/3 3 4 2/
notes finest tris 4 dropped 0 vertices 5/
unused script
unused store
case two triangles at one place, split down to the last level
mesh 3 2/0 0 0/2 0 0/2 2 0/3 0 1 2/3 0 1 2/
script_fails 1
store_fails 1
run finest --digits=0 --cap=1
line
parts 1
mesh_part 0 3 2/0 0 0/2 0 0/2 2 0/3 0 1 2/3 0 1 2/
notes finest tris 2 dropped 0 vertices 3/
unused script
unused store
case the widest axis in whole units
mesh 3 1/0 0 0/1073741824 0 0/0 1 0/3 0 1 2/
script_fails 1
store_fails 1
run finest --digits 0
line
parts 1
mesh_part 0 3 1/0 0 0/1073741824 0 0/0 1 0/3 0 1 2/
notes finest tris 1 dropped 0 vertices 3/
unused script
unused store
case a cap that no tetrahedron has
mesh 5 4/0 0 0/4 0 0/4 4 0/0 4 0/2 2 0/3 0 1 4/3 1 2 4/3 2 3 4/3 3 0 4/
script_fails 1
store_fails 1
run finest --cap 4
line
parts 1
mesh_part 0 5 4/0 0 0/4 0 0/2 2 0/4 4 0/0 4 0/3 0 1 2/3 1 3 2/3 3 4 2/3 4 0 2/
notes finest tris 4 dropped 0 vertices 5/
unused script
unused store";

#[test]
fn a_mesh_is_written_leaf_by_leaf(rt: HostRuntime) -> Result<(), Fail> {
    assert_eq!(rt; failures(rt.alloc(), WRITTEN_LEAF_BY_LEAF)?.as_str(), "");
    Ok(())
}

const GENERATED: &str = "\
case the least mesh
input_fails 1
script_fails 1
work_fails 1
store_fails 1
run gen --size 1
line
parts 1
mesh_part 0 8 12/0 11 22/25 67 78/5 80 27/3 14 89/71 18 29/74 85 32/74 85 96/87 1 76/3 0 1 2/3 0 3 1/3 4 5 6/3 4 6 7/3 0 7 3/3 0 4 7/3 2 1 6/3 2 6 5/3 0 5 4/3 0 2 5/3 3 7 6/3 3 6 1/
notes gen size 1 tris 12/
unused input
unused script
unused work
unused store";

#[test]
fn a_mesh_is_generated_without_a_call_of_another_device(rt: HostRuntime) -> Result<(), Fail> {
    assert_eq!(rt; failures(rt.alloc(), GENERATED)?.as_str(), "");
    Ok(())
}

const OTHER_WORDS: &str = "\
case words: 
mesh 3 1/0 0 0/4 0 0/0 4 0/3 0 1 2/
input_fails 1
script_fails 1
work_fails 1
store_fails 1
out_fails 1
run 
line tpz: usage: tpz FOLDER COMMAND [--NAME VALUE]
unused input
unused script
unused work
unused store
unused out
case words: gen
mesh 3 1/0 0 0/4 0 0/0 4 0/3 0 1 2/
input_fails 1
script_fails 1
work_fails 1
store_fails 1
out_fails 1
run gen
line tpz: usage: tpz FOLDER COMMAND [--NAME VALUE]
unused input
unused script
unused work
unused store
unused out
case words: finset
mesh 3 1/0 0 0/4 0 0/0 4 0/3 0 1 2/
input_fails 1
script_fails 1
work_fails 1
store_fails 1
out_fails 1
run finset
line tpz: usage: tpz FOLDER COMMAND [--NAME VALUE]
unused input
unused script
unused work
unused store
unused out
case words: Finest
mesh 3 1/0 0 0/4 0 0/0 4 0/3 0 1 2/
input_fails 1
script_fails 1
work_fails 1
store_fails 1
out_fails 1
run Finest
line tpz: usage: tpz FOLDER COMMAND [--NAME VALUE]
unused input
unused script
unused work
unused store
unused out
case words: finest finest
mesh 3 1/0 0 0/4 0 0/0 4 0/3 0 1 2/
input_fails 1
script_fails 1
work_fails 1
store_fails 1
out_fails 1
run finest finest
line tpz: usage: tpz FOLDER COMMAND [--NAME VALUE]
unused input
unused script
unused work
unused store
unused out
case words: finest --cap 0
mesh 3 1/0 0 0/4 0 0/0 4 0/3 0 1 2/
input_fails 1
script_fails 1
work_fails 1
store_fails 1
out_fails 1
run finest --cap 0
line tpz: usage: tpz FOLDER COMMAND [--NAME VALUE]
unused input
unused script
unused work
unused store
unused out";

#[test]
fn other_words_are_refused_without_a_call_of_a_device(rt: HostRuntime) -> Result<(), Fail> {
    assert_eq!(rt; failures(rt.alloc(), OTHER_WORDS)?.as_str(), "");
    Ok(())
}

const REFUSED_HEADERS: &str = "\
case no input
input 
out_fails 1
run finest
line tpz: bad input: NotPly at line 1
unused out
case a header without its last line feed
input ply/format ascii 1.0/element vertex 1/property int x
out_fails 1
run finest
line tpz: bad input: Line at line 4
unused out
case another version
input ply/format ascii 1.1/
out_fails 1
run finest
line tpz: bad input: Format at line 2
unused out
case an unknown type
input ply/format ascii 1.0/element vertex 1/property real x/
out_fails 1
run finest
line tpz: bad input: TypeName at line 4
unused out
case too many rows
input ply/format ascii 1.0/element vertex 2147483649/
out_fails 1
run finest
line tpz: bad input: TooMany at line 3
unused out
case a vertex element without z
input ply/format ascii 1.0/element vertex 1/property int x/property int y/end_header/
out_fails 1
run finest
line tpz: bad input: NoVertex at line 6
unused out
case points without faces
input ply/format ascii 1.0/element vertex 1/property int x/property int y/property int z/end_header/
out_fails 1
run finest
line tpz: bad input: NoFace at line 7
unused out
case binary floats
input ply/format binary_little_endian 1.0/element vertex 3/property float x/property int y/property int z/element face 1/property list uchar int vertex_indices/end_header/
out_fails 1
run finest
line tpz: bad input: FloatBinary at line 9
unused out";

#[test]
fn a_refused_header_is_told_by_its_line(rt: HostRuntime) -> Result<(), Fail> {
    assert_eq!(rt; failures(rt.alloc(), REFUSED_HEADERS)?.as_str(), "");
    Ok(())
}

const REFUSED_MESHES: &str = "\
case a short row
mesh 1 0/0 0/
out_fails 1
run finest
line tpz: bad input: Short at element 0 row 0
unused out
case a count of rows without a body
mesh 2147483648 0/
out_fails 1
run finest
line tpz: bad input: Short at element 0 row 0
unused out
case an index of 19 digits in a short body
mesh 3 1/0 0 0/4 0 0/0 4 0/9223372036854775807 0 1 2/
out_fails 1
run finest
line tpz: bad input: Short at element 1 row 0
unused out
case a letter in the second row
mesh 2 0/0 0 0/1 a 0/
out_fails 1
run finest
line tpz: bad input: Number at element 0 row 1
unused out
case a coordinate past the range
mesh 1 0/0 0 -2147483648/
out_fails 1
run finest
line tpz: bad input: Range at element 0 row 0
unused out
case an index that is too large
mesh 4 1/0 0 0/4 0 0/4 4 0/0 4 0/3 0 1 4/
out_fails 1
run finest
line tpz: bad input: BadIndex 4 at element 1 row 0
unused out
case an index below zero in the second face
mesh 3 2/0 0 0/4 0 0/4 4 0/3 0 1 2/3 0 1 -1/
out_fails 1
run finest
line tpz: bad input: BadIndex -1 at element 1 row 1
unused out
case one more than the widest axis
mesh 2 0/0 0 0/1073741825 0 0/
out_fails 1
run finest
line tpz: extent: axis 0 from 0 to 1073741825; use fewer --digits
unused out
case a short row behind a wide one
mesh 2 0/0 0 0/1073741825 0/
out_fails 1
run finest
line tpz: bad input: Short at element 0 row 1
unused out";

#[test]
fn a_refused_mesh_is_told_by_its_row(rt: HostRuntime) -> Result<(), Fail> {
    assert_eq!(rt; failures(rt.alloc(), REFUSED_MESHES)?.as_str(), "");
    Ok(())
}

const REFUSED_ITEMS: &str = "\
case short: 
mesh 3 1/0 0 0/4 0 0/
out_fails 1
run finest
line tpz: bad input: Short at element 0 row 2
unused out
case short: 0
mesh 3 1/0 0 0/4 0 0/0
out_fails 1
run finest
line tpz: bad input: Short at element 0 row 2
unused out
case short: 0 4
mesh 3 1/0 0 0/4 0 0/0 4
out_fails 1
run finest
line tpz: bad input: Short at element 0 row 2
unused out
case no number: a 4 0
mesh 3 1/0 0 0/4 0 0/a 4 0
out_fails 1
run finest
line tpz: bad input: Number at element 0 row 2
unused out
case no number: 0 4- 0
mesh 3 1/0 0 0/4 0 0/0 4- 0
out_fails 1
run finest
line tpz: bad input: Number at element 0 row 2
unused out
case no number: 0 4 1e
mesh 3 1/0 0 0/4 0 0/0 4 1e
out_fails 1
run finest
line tpz: bad input: Number at element 0 row 2
unused out
case out of range: 2147483648 4 0
mesh 3 1/0 0 0/4 0 0/2147483648 4 0
out_fails 1
run finest
line tpz: bad input: Range at element 0 row 2
unused out
case out of range: 0 -2147483648 0
mesh 3 1/0 0 0/4 0 0/0 -2147483648 0
out_fails 1
run finest
line tpz: bad input: Range at element 0 row 2
unused out
case out of range: 0 4 3e9
mesh 3 1/0 0 0/4 0 0/0 4 3e9
out_fails 1
run finest
line tpz: bad input: Range at element 0 row 2
unused out
case no face
mesh 3 1/0 0 0/4 0 0/0 4 0/
out_fails 1
run finest
line tpz: bad input: Short at element 1 row 0
unused out
case one corner
mesh 3 1/0 0 0/4 0 0/0 4 0/3 0
out_fails 1
run finest
line tpz: bad input: Short at element 1 row 0
unused out
case two corners
mesh 3 1/0 0 0/4 0 0/0 4 0/3 0 1
out_fails 1
run finest
line tpz: bad input: Short at element 1 row 0
unused out
case no count
mesh 3 1/0 0 0/4 0 0/0 4 0/three 0 1 2
out_fails 1
run finest
line tpz: bad input: Number at element 1 row 0
unused out
case a negative count
mesh 3 1/0 0 0/4 0 0/0 4 0/-1
out_fails 1
run finest
line tpz: bad input: Number at element 1 row 0
unused out
case a point in an index
mesh 3 1/0 0 0/4 0 0/0 4 0/3 0 1.0 2
out_fails 1
run finest
line tpz: bad input: Number at element 1 row 0
unused out
case a letter behind an index
mesh 3 1/0 0 0/4 0 0/0 4 0/3 0 1 2x
out_fails 1
run finest
line tpz: bad input: Number at element 1 row 0
unused out
case the first corner
mesh 3 1/0 0 0/4 0 0/0 4 0/3 3 1 2
out_fails 1
run finest
line tpz: bad input: BadIndex 3 at element 1 row 0
unused out
case the second corner
mesh 3 1/0 0 0/4 0 0/0 4 0/3 0 -1 2
out_fails 1
run finest
line tpz: bad input: BadIndex -1 at element 1 row 0
unused out
case the third corner
mesh 3 1/0 0 0/4 0 0/0 4 0/3 0 1 9
out_fails 1
run finest
line tpz: bad input: BadIndex 9 at element 1 row 0
unused out";

#[test]
fn each_item_of_a_row_may_be_refused(rt: HostRuntime) -> Result<(), Fail> {
    assert_eq!(rt; failures(rt.alloc(), REFUSED_ITEMS)?.as_str(), "");
    Ok(())
}

const REFUSED_FIELDS: &str = "\
case little endian, 25 bytes left out
binary little
more 0 0 0 0 0 0 0 0 0 0 0 0 4 0 0 0 0 0 0 0 0 0 0 0
out_fails 1
run finest
line tpz: bad input: Short at element 0 row 2
unused out
case little endian, 18 bytes left out
binary little
more 0 0 0 0 0 0 0 0 0 0 0 0 4 0 0 0 0 0 0 0 0 0 0 0 0 0 0 0 4 0 0
out_fails 1
run finest
line tpz: bad input: Short at element 0 row 2
unused out
case little endian, 14 bytes left out
binary little
more 0 0 0 0 0 0 0 0 0 0 0 0 4 0 0 0 0 0 0 0 0 0 0 0 0 0 0 0 4 0 0 0 0 0 0
out_fails 1
run finest
line tpz: bad input: Short at element 0 row 2
unused out
case little endian, 13 bytes left out
binary little
more 0 0 0 0 0 0 0 0 0 0 0 0 4 0 0 0 0 0 0 0 0 0 0 0 0 0 0 0 4 0 0 0 0 0 0 0
out_fails 1
run finest
line tpz: bad input: Short at element 1 row 0
unused out
case little endian, 9 bytes left out
binary little
more 0 0 0 0 0 0 0 0 0 0 0 0 4 0 0 0 0 0 0 0 0 0 0 0 0 0 0 0 4 0 0 0 0 0 0 0 3 0 0 0
out_fails 1
run finest
line tpz: bad input: Short at element 1 row 0
unused out
case little endian, 5 bytes left out
binary little
more 0 0 0 0 0 0 0 0 0 0 0 0 4 0 0 0 0 0 0 0 0 0 0 0 0 0 0 0 4 0 0 0 0 0 0 0 3 0 0 0 0 1 0 0
out_fails 1
run finest
line tpz: bad input: Short at element 1 row 0
unused out
case little endian, 1 bytes left out
binary little
more 0 0 0 0 0 0 0 0 0 0 0 0 4 0 0 0 0 0 0 0 0 0 0 0 0 0 0 0 4 0 0 0 0 0 0 0 3 0 0 0 0 1 0 0 0 2 0 0
out_fails 1
run finest
line tpz: bad input: Short at element 1 row 0
unused out
case little endian, Range in element 0 row 2
binary little
more 0 0 0 0 0 0 0 0 0 0 0 0 4 0 0 0 0 0 0 0 0 0 0 0 0 0 0 128 4 0 0 0 0 0 0 0 3 0 0 0 0 1 0 0 0 2 0 0 0
out_fails 1
run finest
line tpz: bad input: Range at element 0 row 2
unused out
case little endian, Range in element 0 row 1
binary little
more 0 0 0 0 0 0 0 0 0 0 0 0 4 0 0 0 0 0 0 128 0 0 0 0 0 0 0 0 4 0 0 0 0 0 0 0 3 0 0 0 0 1 0 0 0 2 0 0 0
out_fails 1
run finest
line tpz: bad input: Range at element 0 row 1
unused out
case little endian, Range in element 0 row 0
binary little
more 0 0 0 0 0 0 0 0 0 0 0 128 4 0 0 0 0 0 0 0 0 0 0 0 0 0 0 0 4 0 0 0 0 0 0 0 3 0 0 0 0 1 0 0 0 2 0 0 0
out_fails 1
run finest
line tpz: bad input: Range at element 0 row 0
unused out
case little endian, Number in element 1 row 0
binary little
more 0 0 0 0 0 0 0 0 0 0 0 0 4 0 0 0 0 0 0 0 0 0 0 0 0 0 0 0 4 0 0 0 0 0 0 0 255 0 0 0 0 1 0 0 0 2 0 0 0
out_fails 1
run finest
line tpz: bad input: Number at element 1 row 0
unused out
case little endian, BadIndex 3 in element 1 row 0
binary little
more 0 0 0 0 0 0 0 0 0 0 0 0 4 0 0 0 0 0 0 0 0 0 0 0 0 0 0 0 4 0 0 0 0 0 0 0 3 3 0 0 0 1 0 0 0 2 0 0 0
out_fails 1
run finest
line tpz: bad input: BadIndex 3 at element 1 row 0
unused out
case little endian, BadIndex -1 in element 1 row 0
binary little
more 0 0 0 0 0 0 0 0 0 0 0 0 4 0 0 0 0 0 0 0 0 0 0 0 0 0 0 0 4 0 0 0 0 0 0 0 3 0 0 0 0 255 255 255 255 2 0 0 0
out_fails 1
run finest
line tpz: bad input: BadIndex -1 at element 1 row 0
unused out
case little endian, BadIndex -2147483648 in element 1 row 0
binary little
more 0 0 0 0 0 0 0 0 0 0 0 0 4 0 0 0 0 0 0 0 0 0 0 0 0 0 0 0 4 0 0 0 0 0 0 0 3 0 0 0 0 1 0 0 0 0 0 0 128
out_fails 1
run finest
line tpz: bad input: BadIndex -2147483648 at element 1 row 0
unused out
case big endian, 25 bytes left out
binary big
more 0 0 0 0 0 0 0 0 0 0 0 0 0 0 0 4 0 0 0 0 0 0 0 0
out_fails 1
run finest
line tpz: bad input: Short at element 0 row 2
unused out
case big endian, 18 bytes left out
binary big
more 0 0 0 0 0 0 0 0 0 0 0 0 0 0 0 4 0 0 0 0 0 0 0 0 0 0 0 0 0 0 0
out_fails 1
run finest
line tpz: bad input: Short at element 0 row 2
unused out
case big endian, 14 bytes left out
binary big
more 0 0 0 0 0 0 0 0 0 0 0 0 0 0 0 4 0 0 0 0 0 0 0 0 0 0 0 0 0 0 0 4 0 0 0
out_fails 1
run finest
line tpz: bad input: Short at element 0 row 2
unused out
case big endian, 13 bytes left out
binary big
more 0 0 0 0 0 0 0 0 0 0 0 0 0 0 0 4 0 0 0 0 0 0 0 0 0 0 0 0 0 0 0 4 0 0 0 0
out_fails 1
run finest
line tpz: bad input: Short at element 1 row 0
unused out
case big endian, 9 bytes left out
binary big
more 0 0 0 0 0 0 0 0 0 0 0 0 0 0 0 4 0 0 0 0 0 0 0 0 0 0 0 0 0 0 0 4 0 0 0 0 3 0 0 0
out_fails 1
run finest
line tpz: bad input: Short at element 1 row 0
unused out
case big endian, 5 bytes left out
binary big
more 0 0 0 0 0 0 0 0 0 0 0 0 0 0 0 4 0 0 0 0 0 0 0 0 0 0 0 0 0 0 0 4 0 0 0 0 3 0 0 0 0 0 0 0
out_fails 1
run finest
line tpz: bad input: Short at element 1 row 0
unused out
case big endian, 1 bytes left out
binary big
more 0 0 0 0 0 0 0 0 0 0 0 0 0 0 0 4 0 0 0 0 0 0 0 0 0 0 0 0 0 0 0 4 0 0 0 0 3 0 0 0 0 0 0 0 1 0 0 0
out_fails 1
run finest
line tpz: bad input: Short at element 1 row 0
unused out
case big endian, Range in element 0 row 2
binary big
more 0 0 0 0 0 0 0 0 0 0 0 0 0 0 0 4 0 0 0 0 0 0 0 0 128 0 0 0 0 0 0 4 0 0 0 0 3 0 0 0 0 0 0 0 1 0 0 0 2
out_fails 1
run finest
line tpz: bad input: Range at element 0 row 2
unused out
case big endian, Range in element 0 row 1
binary big
more 0 0 0 0 0 0 0 0 0 0 0 0 0 0 0 4 128 0 0 0 0 0 0 0 0 0 0 0 0 0 0 4 0 0 0 0 3 0 0 0 0 0 0 0 1 0 0 0 2
out_fails 1
run finest
line tpz: bad input: Range at element 0 row 1
unused out
case big endian, Range in element 0 row 0
binary big
more 0 0 0 0 0 0 0 0 128 0 0 0 0 0 0 4 0 0 0 0 0 0 0 0 0 0 0 0 0 0 0 4 0 0 0 0 3 0 0 0 0 0 0 0 1 0 0 0 2
out_fails 1
run finest
line tpz: bad input: Range at element 0 row 0
unused out
case big endian, Number in element 1 row 0
binary big
more 0 0 0 0 0 0 0 0 0 0 0 0 0 0 0 4 0 0 0 0 0 0 0 0 0 0 0 0 0 0 0 4 0 0 0 0 255 0 0 0 0 0 0 0 1 0 0 0 2
out_fails 1
run finest
line tpz: bad input: Number at element 1 row 0
unused out
case big endian, BadIndex 3 in element 1 row 0
binary big
more 0 0 0 0 0 0 0 0 0 0 0 0 0 0 0 4 0 0 0 0 0 0 0 0 0 0 0 0 0 0 0 4 0 0 0 0 3 0 0 0 3 0 0 0 1 0 0 0 2
out_fails 1
run finest
line tpz: bad input: BadIndex 3 at element 1 row 0
unused out
case big endian, BadIndex -1 in element 1 row 0
binary big
more 0 0 0 0 0 0 0 0 0 0 0 0 0 0 0 4 0 0 0 0 0 0 0 0 0 0 0 0 0 0 0 4 0 0 0 0 3 0 0 0 0 255 255 255 255 0 0 0 2
out_fails 1
run finest
line tpz: bad input: BadIndex -1 at element 1 row 0
unused out
case big endian, BadIndex -2147483648 in element 1 row 0
binary big
more 0 0 0 0 0 0 0 0 0 0 0 0 0 0 0 4 0 0 0 0 0 0 0 0 0 0 0 0 0 0 0 4 0 0 0 0 3 0 0 0 0 0 0 0 1 128 0 0 0
out_fails 1
run finest
line tpz: bad input: BadIndex -2147483648 at element 1 row 0
unused out";

#[test]
fn each_field_of_a_row_may_be_refused(rt: HostRuntime) -> Result<(), Fail> {
    assert_eq!(rt; failures(rt.alloc(), REFUSED_FIELDS)?.as_str(), "");
    Ok(())
}

const BINARY_MESHES: &str = "\
case shorts, the low byte first
input ply/format binary_little_endian 1.0/element vertex 3/property short x/property short y/property short z/element face 1/property list uchar int vertex_indices/end_header/
more 0 0 0 0 0 0 4 0 0 0 0 0 0 0 4 0 0 0 3 0 0 0 0 1 0 0 0 2 0 0 0
run finest
line
parts 1
mesh_part 0 3 1/0 0 0/4 0 0/0 4 0/3 0 1 2/
notes finest tris 1 dropped 0 vertices 3/
case shorts, the low byte first, without the last byte
input ply/format binary_little_endian 1.0/element vertex 3/property short x/property short y/property short z/element face 1/property list uchar int vertex_indices/end_header/
more 0 0 0 0 0 0 4 0 0 0 0 0 0 0 4 0 0 0 3 0 0 0 0 1 0 0 0 2 0 0
out_fails 1
run finest
line tpz: bad input: Short at element 1 row 0
unused out
case shorts, the high byte first
input ply/format binary_big_endian 1.0/element vertex 3/property int16 x/property int16 y/property int16 z/element face 1/property list uchar int vertex_indices/end_header/
more 0 0 0 0 0 0 0 4 0 0 0 0 0 0 0 4 0 0 3 0 0 0 0 0 0 0 1 0 0 0 2
run finest
line
parts 1
mesh_part 0 3 1/0 0 0/4 0 0/0 4 0/3 0 1 2/
notes finest tris 1 dropped 0 vertices 3/
case shorts, the high byte first, without the last byte
input ply/format binary_big_endian 1.0/element vertex 3/property int16 x/property int16 y/property int16 z/element face 1/property list uchar int vertex_indices/end_header/
more 0 0 0 0 0 0 0 4 0 0 0 0 0 0 0 4 0 0 3 0 0 0 0 0 0 0 1 0 0 0
out_fails 1
run finest
line tpz: bad input: Short at element 1 row 0
unused out
case bytes, and a float that is skipped
input ply/format binary_little_endian 1.0/element vertex 3/property uchar x/property uchar y/property float nx/property uchar z/element face 1/property list uchar int vertex_indices/end_header/
more 0 0 1 2 3 4 0 4 0 0 0 128 63 0 0 4 255 255 255 255 0 3 0 0 0 0 1 0 0 0 2 0 0 0
run finest
line
parts 1
mesh_part 0 3 1/0 0 0/4 0 0/0 4 0/3 0 1 2/
notes finest tris 1 dropped 0 vertices 3/
case bytes, and a float that is skipped, without the last byte
input ply/format binary_little_endian 1.0/element vertex 3/property uchar x/property uchar y/property float nx/property uchar z/element face 1/property list uchar int vertex_indices/end_header/
more 0 0 1 2 3 4 0 4 0 0 0 128 63 0 0 4 255 255 255 255 0 3 0 0 0 0 1 0 0 0 2 0 0
out_fails 1
run finest
line tpz: bad input: Short at element 1 row 0
unused out";

#[test]
fn binary_meshes_are_read(rt: HostRuntime) -> Result<(), Fail> {
    assert_eq!(rt; failures(rt.alloc(), BINARY_MESHES)?.as_str(), "");
    Ok(())
}

const ASCII_MESHES: &str = "\
case a scanned mesh
input ply/format ascii 1.0/comment zipper output/element vertex 3/property float x/property float y/property float z/property float confidence/property float intensity/element face 1/property list uchar int vertex_indices/end_header/-0.0378297 0.12794 0.00447467 0.850855 0.5 /-0.0447794 0.128887 0.00190497 0.900159 0.5 /0.0000015 -2.5e-6 1 1 0.5/3 0 1 2 /
run finest
line
parts 1
part 0 ply/format ascii 1.0/comment tpz digits 6/element vertex 3/property int x/property int y/property int z/element face 1/property list uchar int vertex_indices/end_header/-37830 127940 4475/-44779 128887 1905/2 -3 1000000/3 0 1 2/
notes finest tris 1 dropped 0 vertices 3/
case extra elements
input ply/format ascii 1.0/obj_info made by hand/element face 1/property list uchar int vertex_indices/element empty 2147483648/element vertex 3/property int x/property list uchar float colours/property int y/property int z/element edge 1/property int a/element face 2/property uchar flags/property list uchar int vertex_index/element more 1/property char c/end_header/3 9 9 9/0 0 0 0/4 2 0.5 0.5/0/0/0 1 1 4 0/77/1 3 0 1 2/0 2 0 1/x/
run finest
line
parts 1
mesh_part 0 3 1/0 0 0/4 0 0/0 4 0/3 0 1 2/
notes finest tris 1 dropped 0 vertices 3/
case lines with returns
input ply\r/format ascii 1.0\r/element vertex 3\r/property int x\r/property int y\r/property int z\r/element face 1\r/property list uchar int vertex_indices\r/end_header\r/0 0 0\r/4 0 0\r/0 4 0\r/3 0 1 2\r/
run finest
line
parts 1
mesh_part 0 3 1/0 0 0/4 0 0/0 4 0/3 0 1 2/
notes finest tris 1 dropped 0 vertices 3/";

#[test]
fn ascii_meshes_of_other_programs_are_read(rt: HostRuntime) -> Result<(), Fail> {
    assert_eq!(rt; failures(rt.alloc(), ASCII_MESHES)?.as_str(), "");
    Ok(())
}

const FAILING_DEVICES: &str = "\
case the first read of the input
mesh 3 1/0 0 0/4 0 0/0 4 0/3 0 1 2/
input_fails 1
out_fails 1
run finest
line tpz: input failed
unused out
case a call of the work file: 1
mesh 3 1/0 0 0/4 0 0/0 4 0/3 0 1 2/
out_fails 1
work_fails 1
run finest
line tpz: work file failed
unused out
case a call of the work file: 2
mesh 3 1/0 0 0/4 0 0/0 4 0/3 0 1 2/
out_fails 1
work_fails 2
run finest
line tpz: work file failed
unused out
case a call of the work file: 4
mesh 3 1/0 0 0/4 0 0/0 4 0/3 0 1 2/
out_fails 1
work_fails 4
run finest
line tpz: work file failed
unused out
case a call of the work file: one without room
mesh 3 1/0 0 0/4 0 0/0 4 0/3 0 1 2/
out_fails 1
work_room 35
run finest
line tpz: work file failed
unused out";

#[test]
fn a_failing_device_is_told(rt: HostRuntime) -> Result<(), Fail> {
    assert_eq!(rt; failures(rt.alloc(), FAILING_DEVICES)?.as_str(), "");
    Ok(())
}

const OUTPUT_CALLS: &str = "\
case call 1
mesh 3 1/0 0 0/4 0 0/0 4 0/3 0 1 2/
out_fails 1
run finest
line tpz: output failed
parts 0
notes
case call 2
mesh 3 1/0 0 0/4 0 0/0 4 0/3 0 1 2/
out_fails 2
run finest
line tpz: output failed
parts 0
notes
case call 3
mesh 3 1/0 0 0/4 0 0/0 4 0/3 0 1 2/
out_fails 3
run finest
line tpz: output failed
parts 0
notes
case call 4
mesh 3 1/0 0 0/4 0 0/0 4 0/3 0 1 2/
out_fails 4
run finest
line tpz: output failed
parts 1
notes
case call 5
mesh 3 1/0 0 0/4 0 0/0 4 0/3 0 1 2/
out_fails 5
run finest
line
parts 1
notes finest tris 1 dropped 0 vertices 3/";

#[test]
fn each_call_of_the_output_may_fail(rt: HostRuntime) -> Result<(), Fail> {
    assert_eq!(rt; failures(rt.alloc(), OUTPUT_CALLS)?.as_str(), "");
    Ok(())
}
