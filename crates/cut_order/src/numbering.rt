// The mesh of a cut without diamonds: the triangles of each root in turn, with their vertices numbered.
ghost use Rattle.std.specs.Prelude.{◌≡◌, ◌++◌, ◌∷◌, [], filter, IfOk, OnOk};
ghost use Rattle.tpz_base.specs.Roots.{root_part, mesh_by_roots};
ghost use Rattle.cut_export.specs.Numbering.{numbered_mesh, IsNumbering};
ghost use Rattle.cut_order.specs.Numbering.{is_outside};

use assign::root_of;
use cut_export::Numbered;
use std::alloc::{AllocError, Global};
use tpz_base::Tri;

// Adds a triangle at the end of the mesh where it is in this root.
#[tactic(auto, using(crate::proofs::RootLoops::in_root, crate::proofs::RootLoops::not_in_root))]
fn add_in_root(numbered: &mut Numbered, t: &Tri, place: u8) -> Result<(), AllocError>
    requires { IsNumbering numbered.old }
    ensures mesh { OnOk result (numbered_mesh numbered.new ≡ numbered_mesh numbered.old ++ root_part (t.now ∷ []) place) }
    ensures numbering { OnOk result (IsNumbering numbered.new) }
{
    if root_of(t) != place {
        return Ok(());
    }
    numbered.add(t)
}

// Adds the triangles of a root, in order, at the end of the mesh.
fn add_root(numbered: &mut Numbered, tris: &[Tri], place: u8) -> Result<(), AllocError>
    requires { IsNumbering numbered.old }
    ensures mesh { OnOk result (numbered_mesh numbered.new ≡ numbered_mesh numbered.old ++ root_part tris.now place) }
    ensures numbering { OnOk result (IsNumbering numbered.new) }
{
    'tris: for t in tris {
        add_in_root(numbered, t, place)?;
    }
    Ok(())
}

// Whether a triangle stays where those of this root go.
#[tactic(auto, using(crate::proofs::RootLoops::outside, crate::proofs::RootLoops::inside))]
fn stays(t: &Tri, place: u8) -> bool
    ensures { result ≡ is_outside place t.now }
{
    root_of(t) != place
}

// Lets the triangles of a root go, and their memory with them.
fn let_go(tris: &mut Vec<Tri>, place: u8)
    ensures { tris.new.items ≡ filter (is_outside place) tris.old.items }
{
    tris.retain(|t| stays(t, place));
    tris.shrink_to_fit();
}

/// The triangles of each root in turn, with their vertices numbered in the order of first use. The triangles of a root are
/// let go once they are numbered, so that a mesh of many roots is never held twice.
pub fn number_by_roots(alloc: Global, mut tris: Vec<Tri>) -> Result<Numbered, AllocError>
    ensures mesh { IfOk result (λ numbered. numbered_mesh numbered ≡ mesh_by_roots tris.items) }
    ensures numbering { IfOk result IsNumbering }
{
    let mut numbered = Numbered::with_room(alloc, tris.len())?;
    'roots: for place in 0..6u8 {
        add_root(&mut numbered, &tris, place)?;
        let_go(&mut tris, place);
    }
    Ok(numbered)
}
