// The command `finest`.
ghost use Rattle.std.specs.Prelude.{◌≡◌, ◌≤◌, ◌<◌, ◌⊎◌, ℕ, List, [], Ok, Err, None, length, OnOk, IfOk, IfSome, IsErrOf, string_bytes};
ghost use Rattle.std.specs.Option.{ForSome};
ghost use Rattle.tpz_io.specs.Causes.{Rose};
ghost use Rattle.tpz_io.specs.Writes.{Wrote, WrotePrefix};
ghost use Rattle.tpz_base.specs.Cubes.{Row};
ghost use Rattle.tpz_base.specs.Texts.{Face};
ghost use Rattle.ply_body.specs.Inputs.{Refusal};
ghost use Rattle.diamond_graph.specs.Adding.{most_centres};
ghost use Rattle.mesh_stream.specs.Digits.{digits_of, input_for, IsAccepted};
ghost use Rattle.command_finest.specs.Finest.{finest_items, finest_note, items_of};
ghost use Rattle.mesh_stream.specs.Splits.{finest_split};
ghost use Rattle.cut_export.specs.Numbering.{numbered_mesh, IsNumbering};
ghost use Rattle.mesh_stream.specs.Readings.{IsInputLow};
ghost use Rattle.run_status.specs.Statuses.{status_of, IsOfStore, IsRefused};

use cut_export::{ExportFault, Numbered};
use finest_cut::number;
use mesh_output::write_part_and_note;
use mesh_stream::{Facts, read_mesh};
use run_status::Status;
use std::alloc::{AllocError, Global};
use tpz_io::{Blob, Out, Source};

// The note: how many triangles the input has, how many were dropped, and how many vertices were written.
fn note_line(
    alloc: Global,
    tris: usize,
    dropped: u64,
    vertices: usize,
) -> Result<String, AllocError>
    ensures { IfOk result (λ line. string_bytes line ≡ finest_note tris dropped vertices) }
{
    format!(in alloc; "finest tris {tris} dropped {dropped} vertices {vertices}")
}

// Writes the part and the note of a mesh.
fn export<O: Out>(
    alloc: Global,
    mesh: &Numbered,
    facts: Facts,
    out: &mut O,
) -> Result<(), ExportFault>
    requires low { IsInputLow facts.low }
    requires numbering { IsNumbering mesh.now }
    ensures ok { OnOk result (Wrote (items_of facts (numbered_mesh mesh.now)) (O.parts out.old) (O.parts out.new) (O.notes out.old) (O.notes out.new)) }
    ensures front { WrotePrefix (items_of facts (numbered_mesh mesh.now)) (O.parts out.old) (O.parts out.new) (O.notes out.old) (O.notes out.new) }
    ensures later { O.faults out.old ≤ O.faults out.new }
    ensures out { IsErrOf result ExportFault.OutFault → Rose (O.faults out.old) (O.faults out.new) }
{
    let vertices = mesh.vertices.as_slice();
    let line = note_line(alloc, facts.tris, facts.dropped, vertices.len())?;
    write_part_and_note(alloc, mesh, facts.low, facts.digits, line.as_bytes(), out)
}

/// Reads an input, and writes its mesh in the order of its finest cut. Without digits those are taken that the types of the
/// coordinates set; without a cap no diamond is split.
pub fn run_finest<I: Source, W: Blob, O: Out>(
    alloc: Global,
    digits: Option<u8>,
    cap: Option<u32>,
    input: &mut I,
    work: &mut W,
    out: &mut O,
) -> Status
    requires { IfSome digits (λ d. d ≤ 9) }
    ensures asked { ¬ (result ≡ Status.Usage) }
    ensures own { ¬ IsOfStore result }
    ensures ok { result ≡ Status.Ok → ForSome (I.left input.old) (λ bytes. ForSome (W.held work.old) (λ _. (rows : List Row) (faces : List Face)
        → input_for digits bytes ≡ Ok (record { rows = rows; faces = faces })
        → Wrote (finest_items cap (digits_of digits bytes) rows faces) (O.parts out.old) (O.parts out.new) (O.notes out.old) (O.notes out.new))) }
    ensures refused { IsRefused result → ForSome (I.left input.old) (λ bytes. (r : Refusal) × (input_for digits bytes ≡ Err r) × (result ≡ status_of r)) }
    ensures accepted { (result ≡ Status.Ok) ⊎ ((result ≡ Status.OutFault) ⊎ (result ≡ Status.TooManyRecords)) → ForSome (I.left input.old) (IsAccepted digits) }
    ensures few { (result ≡ Status.Ok) ⊎ (result ≡ Status.OutFault) → ForSome (I.left input.old) (λ bytes. ForSome (W.held work.old) (λ _. (rows : List Row) (faces : List Face)
        → input_for digits bytes ≡ Ok (record { rows = rows; faces = faces }) → length (finest_split cap rows faces) ≤ most_centres)) }
    ensures too_many { result ≡ Status.TooManyRecords → ForSome (I.left input.old) (λ bytes. ForSome (W.held work.old) (λ _. (rows : List Row) (faces : List Face)
        → input_for digits bytes ≡ Ok (record { rows = rows; faces = faces }) → most_centres < length (finest_split cap rows faces))) }
    ensures input_fault { result ≡ Status.InputFault → Rose (I.faults input.old) (I.faults input.new) }
    ensures work_fault { result ≡ Status.WorkFault → Rose (W.faults work.old) (W.faults work.new) }
    ensures work_damage { (offset : ℕ) → result ≡ Status.WorkDamage offset → W.held work.old ≡ None }
    ensures out_fault { result ≡ Status.OutFault → Rose (O.faults out.old) (O.faults out.new) }
    ensures input_later { I.faults input.old ≤ I.faults input.new }
    ensures work_later { W.faults work.old ≤ W.faults work.new }
    ensures out_later { O.faults out.old ≤ O.faults out.new }
    ensures front { ForSome (I.left input.old) (λ bytes. ForSome (W.held work.old) (λ _. (rows : List Row) (faces : List Face)
        → input_for digits bytes ≡ Ok (record { rows = rows; faces = faces })
        → WrotePrefix (finest_items cap (digits_of digits bytes) rows faces) (O.parts out.old) (O.parts out.new) (O.notes out.old) (O.notes out.new))) }
    ensures unaccepted { ForSome (I.left input.old) (λ bytes. ¬ IsAccepted digits bytes
        → Wrote [] (O.parts out.old) (O.parts out.new) (O.notes out.old) (O.notes out.new)) }
    ensures unread { ¬ (result ≡ Status.Ok) → ¬ (result ≡ Status.OutFault) → ¬ (result ≡ Status.Memory)
        → Wrote [] (O.parts out.old) (O.parts out.new) (O.notes out.old) (O.notes out.new) }
{
    let mesh = match read_mesh(alloc, digits, input, work) {
        Ok(mesh) => mesh,
        Err(status) => return status,
    };
    let facts = mesh.facts();
    let numbered = match number(alloc, mesh, cap, work) {
        Ok(numbered) => numbered,
        Err(status) => return status,
    };
    match export(alloc, &numbered, facts, out) {
        Ok(()) => Status::Ok,
        Err(ExportFault::OutFault) => Status::OutFault,
        Err(ExportFault::Memory) => Status::Memory,
    }
}
