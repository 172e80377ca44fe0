// Parts that are written.
ghost use Rattle.std.specs.Prelude.{◌≡◌, ◌≤◌, ◌∷◌, [], IfOk, OnOk, OnErr, IsErrOf};
ghost use Rattle.tpz_io.specs.Causes.{Rose};
ghost use Rattle.tpz_io.specs.Told.{followed_by};
ghost use Rattle.tpz_base.specs.Texts.{text};
ghost use Rattle.patch_view.specs.Views.{mesh_of};
ghost use Rattle.cut_export.specs.declared.export.ExportFault.TheVariants.{OutFault, Memory};
ghost use Rattle.cut_export.specs.Numbering.{numbered_mesh, IsNumbering};
ghost use Rattle.cut_export.specs.Parts.{IsLow, row_of};

use crate::numbering::Numbered;
use crate::part_buffer::PartBuffer;
use crate::part_text::write_text;
use patch_view::PatchView;
use std::alloc::{AllocError, Global};
use tpz_io::{Failed, Out};

/// Why a part wasn't written.
#[derive(Clone, Copy, Debug, PartialEq, Eq)]
pub enum ExportFault {
    OutFault,
    Memory,
}

impl From<Failed> for ExportFault {
    ghost from_gives = { λ _ e. e ≡ OutFault };

    fn from(_: Failed) -> Self {
        ExportFault::OutFault
    }
}

impl From<AllocError> for ExportFault {
    ghost from_gives = { λ _ e. e ≡ Memory };

    fn from(_: AllocError) -> Self {
        ExportFault::Memory
    }
}

/// Writes one part: the text of the mesh that the views show, one view after another, with `low`, the least scaled
/// coordinates of the input, added to its vertices. A refusal leaves the finished parts as they were.
pub fn write_mesh<O: Out>(
    alloc: Global,
    views: &[PatchView<'_>],
    low: [i64; 3],
    digits: u8,
    out: &mut O,
) -> Result<(), ExportFault>
    requires { IsLow low }
    ensures part { OnOk result (O.parts out.new ≡ followed_by (O.parts out.old) (text (mesh_of views.now) (row_of low) digits ∷ [])) }
    ensures err { OnErr result (O.parts out.new ≡ O.parts out.old) }
    ensures notes { O.notes out.new ≡ O.notes out.old }
    ensures later { O.faults out.old ≤ O.faults out.new }
    ensures out { IsErrOf result ExportFault.OutFault → Rose (O.faults out.old) (O.faults out.new) }
{
    let mesh = number_views(alloc, views)?;
    write_numbered(alloc, &mesh, low, digits, out)
}

/// The same of a mesh whose vertices are numbered.
pub fn write_numbered<O: Out>(
    alloc: Global,
    mesh: &Numbered,
    low: [i64; 3],
    digits: u8,
    out: &mut O,
) -> Result<(), ExportFault>
    requires low { IsLow low }
    requires numbering { IsNumbering mesh.now }
    ensures part { OnOk result (O.parts out.new ≡ followed_by (O.parts out.old) (text (numbered_mesh mesh.now) (row_of low) digits ∷ [])) }
    ensures err { OnErr result (O.parts out.new ≡ O.parts out.old) }
    ensures notes { O.notes out.new ≡ O.notes out.old }
    ensures later { O.faults out.old ≤ O.faults out.new }
    ensures out { IsErrOf result ExportFault.OutFault → Rose (O.faults out.old) (O.faults out.new) }
{
    let mut buffer = PartBuffer::new(alloc)?;
    out.part()?;
    write_text(out, &mut buffer, mesh, digits, &low)?;
    out.finish()?;
    Ok(())
}

// The mesh of the views with its vertices numbered.
#[tactic(auto, using(crate::proofs::Exports::no_views))]
fn number_views(alloc: Global, views: &[PatchView<'_>]) -> Result<Numbered, AllocError>
    ensures mesh { IfOk result (λ numbered. numbered_mesh numbered ≡ mesh_of views.now) }
    ensures numbering { IfOk result IsNumbering }
{
    let mut numbered = Numbered::with_room(alloc, 0)?;
    'views: for view in views {
        numbered.add_all(view.tris)?;
    }
    Ok(numbered)
}
