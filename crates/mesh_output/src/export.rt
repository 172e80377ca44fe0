// A mesh as a part, and a note behind it.
ghost use Rattle.std.specs.Prelude.{◌≡◌, ◌≤◌, OnOk, IsErrOf};
ghost use Rattle.tpz_io.specs.Causes.{Rose};
ghost use Rattle.tpz_io.specs.Writes.{Wrote, WrotePrefix};
ghost use Rattle.cut_export.specs.Numbering.{numbered_mesh, IsNumbering};
ghost use Rattle.cut_export.specs.Parts.{row_of, IsLow};
ghost use Rattle.mesh_output.specs.Exports.{mesh_items};

use cut_export::{ExportFault, Numbered, write_numbered};
use std::alloc::Global;
use tpz_io::Out;

/// Writes one part, the text of a mesh with `low` added to its vertices, and then a note.
pub fn write_part_and_note<O: Out>(
    alloc: Global,
    mesh: &Numbered,
    low: [i64; 3],
    digits: u8,
    line: &[u8],
    out: &mut O,
) -> Result<(), ExportFault>
    requires low { IsLow low }
    requires numbering { IsNumbering mesh.now }
    ensures ok { OnOk result (Wrote (mesh_items digits (row_of low) (numbered_mesh mesh.now) line.now) (O.parts out.old) (O.parts out.new) (O.notes out.old) (O.notes out.new)) }
    ensures front { WrotePrefix (mesh_items digits (row_of low) (numbered_mesh mesh.now) line.now) (O.parts out.old) (O.parts out.new) (O.notes out.old) (O.notes out.new) }
    ensures later { O.faults out.old ≤ O.faults out.new }
    ensures out { IsErrOf result ExportFault.OutFault → Rose (O.faults out.old) (O.faults out.new) }
{
    write_numbered(alloc, mesh, low, digits, out)?;
    out.note(line)?;
    Ok(())
}
