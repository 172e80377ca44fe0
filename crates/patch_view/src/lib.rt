//! Patches as they are handed on: the name of a tetrahedron, and a list of triangles that is lent.
#![tactic(auto)]

use tetra_name::Tet;
use tpz_base::Tri;

/// The patch of a tetrahedron. Its triangles stand in a list of whoever gave it.
#[derive(Clone, Copy)]
pub struct PatchView<'a> {
    pub tet: Tet,
    pub tris: &'a [Tri],
}
