// The command `gen`.
ghost use Rattle.std.specs.Prelude.{◌≡◌, ◌≤◌, ◌⊎◌, OnOk, IfOk, IsErrOf, pos, string_bytes};
ghost use Rattle.tpz_io.specs.Causes.{Rose};
ghost use Rattle.tpz_io.specs.Writes.{Wrote, WrotePrefix};
ghost use Rattle.tpz_base.specs.declared.shape.Point.{Point};
ghost use Rattle.tpz_base.specs.Meshes.{edge_sum};
ghost use Rattle.mesh_gen.specs.Generator.{generated, IsSize};
ghost use Rattle.command_gen.specs.Gen.{gen_items, gen_note};
ghost use Rattle.cut_export.specs.Numbering.{numbered_mesh, IsNumbering};

use cut_export::{ExportFault, Numbered};
use mesh_gen::{gen_count, gen_tri};
use mesh_output::write_part_and_note;
use run_status::Status;
use std::alloc::{AllocError, Global};
use tpz_io::Out;

// The note: the size of the mesh, and how many triangles it has.
fn note_line(alloc: Global, size: u32, tris: u32) -> Result<String, AllocError>
    ensures { IfOk result (λ line. string_bytes line ≡ gen_note size tris) }
{
    format!(in alloc; "gen size {size} tris {tris}")
}

// The mesh of this size, with its vertices numbered in the order of first use.
fn number_generated(alloc: Global, size: u32) -> Result<Numbered, AllocError>
    requires { IsSize size }
    ensures mesh { IfOk result (λ numbered. numbered_mesh numbered ≡ generated size) }
    ensures numbering { IfOk result IsNumbering }
{
    let count = gen_count(size);
    let mut numbered = Numbered::with_room(alloc, count as usize)?;
    'tris: for i in 0..count {
        numbered.add(&gen_tri(size, i))?;
    }
    Ok(numbered)
}

// Writes the part and the note of the mesh of this size.
fn export<O: Out>(alloc: Global, size: u32, out: &mut O) -> Result<(), ExportFault>
    requires { IsSize size }
    ensures ok { OnOk result (Wrote (gen_items size) (O.parts out.old) (O.parts out.new) (O.notes out.old) (O.notes out.new)) }
    ensures front { WrotePrefix (gen_items size) (O.parts out.old) (O.parts out.new) (O.notes out.old) (O.notes out.new) }
    ensures later { O.faults out.old ≤ O.faults out.new }
    ensures out { IsErrOf result ExportFault.OutFault → Rose (O.faults out.old) (O.faults out.new) }
{
    let numbered = number_generated(alloc, size)?;
    let line = note_line(alloc, size, gen_count(size))?;
    write_part_and_note(alloc, &numbered, [0, 0, 0], 0, line.as_bytes(), out)
}

/// Writes the generated mesh of this size.
pub fn run_gen<O: Out>(alloc: Global, size: u32, out: &mut O) -> Status
    requires { IsSize size }
    ensures status { (result ≡ Status.Ok) ⊎ ((result ≡ Status.OutFault) ⊎ (result ≡ Status.Memory)) }
    ensures ok { result ≡ Status.Ok → Wrote (gen_items size) (O.parts out.old) (O.parts out.new) (O.notes out.old) (O.notes out.new) }
    ensures closed { (a b : Point) → edge_sum (generated size) a b ≡ pos 0 }
    ensures front { WrotePrefix (gen_items size) (O.parts out.old) (O.parts out.new) (O.notes out.old) (O.notes out.new) }
    ensures out_fault { result ≡ Status.OutFault → Rose (O.faults out.old) (O.faults out.new) }
    ensures later { O.faults out.old ≤ O.faults out.new }
{
    match export(alloc, size, out) {
        Ok(()) => Status::Ok,
        Err(ExportFault::OutFault) => Status::OutFault,
        Err(ExportFault::Memory) => Status::Memory,
    }
}
