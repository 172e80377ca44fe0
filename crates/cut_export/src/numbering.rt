// The vertices of a mesh in the order of first use, and its triangles by the numbers of their corners.
ghost use Rattle.std.specs.Prelude.{◌≡◌, ◌++◌, ◌∷◌, [], IfOk, OnOk};
ghost use Rattle.indexmap.specs.IndexSet.{insert_key};
ghost use Rattle.tpz_base.specs.Points.{point_eq};
ghost use Rattle.tpz_base.specs.Texts.{number_in};
ghost use Rattle.cut_export.specs.Numbering.{numbered_mesh, IsNumbering};

use indexmap::IndexSet;
use std::alloc::{AllocError, Global};
use tpz_base::{Point, Tri};

/// A triangle by the numbers of its corners.
#[derive(Clone, Copy, Debug, PartialEq, Eq)]
pub struct Corners {
    pub a: u32,
    pub b: u32,
    pub c: u32,
}

/// A mesh whose vertices are numbered from 0 in the order of first use.
#[derive(Drop)]
pub struct Numbered {
    pub vertices: IndexSet<Point>,
    pub faces: Vec<Corners>,
}

// The greatest number of a point.
const MOST: usize = 4_294_967_295;

// The number of p, which is a new one at the end where p wasn't there. Numbers have 32 bits; for more points there is no
// room. The points of an input are fewer.
fn number(vertices: &mut IndexSet<Point>, p: Point) -> Result<u32, AllocError>
    ensures keys { OnOk result (vertices.new.keys ≡ insert_key point_eq vertices.old.keys p) }
    ensures number { IfOk result (λ n. n ≡ number_in vertices.new.keys p) }
{
    let (index, _) = vertices.insert_full(p)?;
    if index > MOST {
        return Err(AllocError);
    }
    Ok(index as u32)
}

impl Numbered {
    /// No vertex and no triangle, and room for so many triangles. A closed mesh has about half as many vertices as
    /// triangles; room for a few more is taken at once.
    pub fn with_room(alloc: Global, tris: usize) -> Result<Self, AllocError>
        ensures mesh { IfOk result (λ numbered. numbered_mesh numbered ≡ []) }
        ensures numbering { IfOk result IsNumbering }
    {
        let vertices = IndexSet::with_capacity(alloc, tris / 8 * 5)?;
        let faces = Vec::with_capacity(alloc, tris)?;
        Ok(Numbered { vertices, faces })
    }

    /// Adds a triangle at the end of the mesh.
    pub fn add(&mut self, t: &Tri) -> Result<(), AllocError>
        requires { IsNumbering self.old }
        ensures mesh { OnOk result (numbered_mesh self.new ≡ numbered_mesh self.old ++ t.now ∷ []) }
        ensures numbering { OnOk result (IsNumbering self.new) }
    {
        let a = number(&mut self.vertices, t.a)?;
        let b = number(&mut self.vertices, t.b)?;
        let c = number(&mut self.vertices, t.c)?;
        self.faces.push(Corners { a, b, c })?;
        Ok(())
    }

    /// Adds triangles at the end of the mesh.
    pub fn add_all(&mut self, tris: &[Tri]) -> Result<(), AllocError>
        requires { IsNumbering self.old }
        ensures mesh { OnOk result (numbered_mesh self.new ≡ numbered_mesh self.old ++ tris.now) }
        ensures numbering { OnOk result (IsNumbering self.new) }
    {
        'tris: for t in tris {
            self.add(t)?;
        }
        Ok(())
    }
}
