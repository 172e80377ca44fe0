// The text of a mesh, line by line.
ghost use Rattle.std.specs.Prelude.{◌≡◌, ◌≤◌, ◌+◌, ◌*◌, ◌++◌, ◌∷◌, [], ◌^◌, length, pos, ◌+ℤ◌, unsigned_abs, OnOk, IsTrue};
ghost use Rattle.tpz_io.specs.Causes.{HasCause};
ghost use Rattle.tpz_io.specs.Told.{followed_by};
ghost use Rattle.tpz_base.specs.Cubes.{shifted};
ghost use Rattle.tpz_base.specs.Texts.{text};
ghost use Rattle.cut_export.specs.declared.part_buffer.TheConstants.{LINE, ROOM};
ghost use Rattle.cut_export.specs.Parts.{IsLow, row_at, row_of, face_of, head_text, row_text, face_text, rows_text, faces_text};
ghost use Rattle.cut_export.specs.Numbering.{numbered_mesh, IsNumbering};

use crate::numbering::{Corners, Numbered};
use crate::part_buffer::PartBuffer;
use tpz_base::Point;
use tpz_io::{Failed, Out};

// Adds the header of a mesh with so many vertices and faces.
fn push_head(buffer: &mut PartBuffer, digits: u8, vertices: usize, faces: usize)
    requires { length buffer.old + 4 * LINE ≤ ROOM }
    ensures { buffer.new ≡ buffer.old ++ head_text digits vertices faces }
{
    buffer.push(b"ply\nformat ascii 1.0\ncomment tpz digits ");
    buffer.push_number(u64::from(digits));
    buffer.push(b"\nelement vertex ");
    buffer.push_number(vertices as u64);
    buffer.push(b"\nproperty int x\nproperty int y\nproperty int z\nelement face ");
    buffer.push_number(faces as u64);
    buffer.push(b"\nproperty list uchar int vertex_indices\nend_header\n");
}

// A coordinate with the least one added.
fn shift(coordinate: u32, low: i64) -> i64
    requires { unsigned_abs low ≤ 2 ^ 40 }
    ensures { result ≡ pos coordinate +ℤ low }
{
    i64::from(coordinate) + low
}

// Adds the line of a row.
fn push_row(buffer: &mut PartBuffer, x: i64, y: i64, z: i64)
    requires { length buffer.old + LINE ≤ ROOM }
    ensures { buffer.new ≡ buffer.old ++ row_text (row_at x y z) }
{
    buffer.push_signed(x);
    buffer.push(b" ");
    buffer.push_signed(y);
    buffer.push(b" ");
    buffer.push_signed(z);
    buffer.push(b"\n");
}

// Adds the line of a vertex, with the least coordinates added.
fn push_vertex(buffer: &mut PartBuffer, p: Point, low: &[i64; 3])
    requires room { length buffer.old + LINE ≤ ROOM }
    requires near { IsLow low.now }
    ensures { buffer.new ≡ buffer.old ++ row_text (shifted (row_of low.now) p) }
{
    push_row(
        buffer,
        shift(p.x, low[0]),
        shift(p.y, low[1]),
        shift(p.z, low[2]),
    );
}

// Adds the line of a triangle.
fn push_face(buffer: &mut PartBuffer, f: Corners)
    requires { length buffer.old + LINE ≤ ROOM }
    ensures { buffer.new ≡ buffer.old ++ face_text (face_of f) }
{
    buffer.push(b"3 ");
    buffer.push_number(u64::from(f.a));
    buffer.push(b" ");
    buffer.push_number(u64::from(f.b));
    buffer.push(b" ");
    buffer.push_number(u64::from(f.c));
    buffer.push(b"\n");
}

// Adds the lines of the vertices to the open part.
#[tactic(auto, using(crate::proofs::Pieces::no_rows, crate::proofs::Pieces::row_more))]
fn write_vertices<O: Out>(
    out: &mut O,
    buffer: &mut PartBuffer,
    vertices: &[Point],
    low: &[i64; 3],
) -> Result<(), Failed>
    requires opened { IsTrue (O.is_open out.old) }
    requires near { IsLow low.now }
    ensures opened { OnOk result (IsTrue (O.is_open out.new)) }
    ensures bytes { OnOk result (followed_by (O.unfinished out.new) buffer.new
        ≡ followed_by (followed_by (O.unfinished out.old) buffer.old) (rows_text (row_of low.now) vertices.now)) }
    ensures parts { O.parts out.new ≡ O.parts out.old }
    ensures notes { O.notes out.new ≡ O.notes out.old }
    ensures cause { HasCause (O.faults out.old) (O.faults out.new) result }
{
    'vertices: for p in vertices {
        buffer.make_room(out)?;
        push_vertex(buffer, *p, low);
    }
    Ok(())
}

// Adds the lines of the triangles to the open part.
#[tactic(auto, using(crate::proofs::Pieces::no_faces, crate::proofs::Pieces::face_more))]
fn write_faces<O: Out>(
    out: &mut O,
    buffer: &mut PartBuffer,
    faces: &[Corners],
) -> Result<(), Failed>
    requires { IsTrue (O.is_open out.old) }
    ensures opened { OnOk result (IsTrue (O.is_open out.new)) }
    ensures bytes { OnOk result (followed_by (O.unfinished out.new) buffer.new
        ≡ followed_by (followed_by (O.unfinished out.old) buffer.old) (faces_text faces.now)) }
    ensures parts { O.parts out.new ≡ O.parts out.old }
    ensures notes { O.notes out.new ≡ O.notes out.old }
    ensures cause { HasCause (O.faults out.old) (O.faults out.new) result }
{
    'faces: for f in faces {
        buffer.make_room(out)?;
        push_face(buffer, *f);
    }
    Ok(())
}

/// Writes the header, the vertices and the triangles of a numbered mesh to the open part.
pub fn write_text<O: Out>(
    out: &mut O,
    buffer: &mut PartBuffer,
    mesh: &Numbered,
    digits: u8,
    low: &[i64; 3],
) -> Result<(), Failed>
    requires opened { IsTrue (O.is_open out.old) }
    requires near { IsLow low.now }
    requires empty { buffer.old ≡ [] }
    requires numbering { IsNumbering mesh.now }
    ensures opened { OnOk result (IsTrue (O.is_open out.new)) }
    ensures bytes { OnOk result (O.unfinished out.new ≡ followed_by (O.unfinished out.old) (text (numbered_mesh mesh.now) (row_of low.now) digits)) }
    ensures parts { O.parts out.new ≡ O.parts out.old }
    ensures notes { O.notes out.new ≡ O.notes out.old }
    ensures cause { HasCause (O.faults out.old) (O.faults out.new) result }
{
    let vertices = mesh.vertices.as_slice();
    let faces = mesh.faces.as_slice();
    push_head(buffer, digits, vertices.len(), faces.len());
    write_vertices(out, buffer, vertices, low)?;
    write_faces(out, buffer, faces)?;
    buffer.flush(out)?;
    Ok(())
}
