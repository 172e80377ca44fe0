// The mesh of an input in the order of its finest cut.
ghost use Rattle.std.specs.Prelude.{◌≡◌, ◌≢◌, ◌≤◌, ◌<◌, ◌+◌, ◌^◌, ◌++◌, ◌⊎◌, ℕ, List, All, Err, None, Some, length, is_some, IfOk, IfErr, OnOk};
ghost use Rattle.std.specs.Option.{ForSome, option_map};
ghost use Rattle.tpz_io.specs.Causes.{Rose};
ghost use Rattle.tpz_base.specs.Texts.{Bytes};
ghost use Rattle.diamond_graph.specs.Adding.{most_centres};
ghost use Rattle.tri_stream.specs.Lists.{IsHeld};
ghost use Rattle.tri_stream.specs.declared.names.StreamId.{StreamId};
ghost use Rattle.tri_stream.specs.declared.fault.StreamFault.{StreamFault};
ghost use Rattle.tri_stream.specs.Streams.{count_of, told_list, total, IsLive, Stands};
ghost use Rattle.run_status.specs.declared.status.Status.{Status};
ghost use Rattle.finest_cut.specs.Cuts.{mesh_for};
ghost use Rattle.mesh_stream.specs.Splits.{split_for};
ghost use Rattle.cut_export.specs.Numbering.{numbered_mesh, IsNumbering};
ghost use Rattle.mesh_stream.specs.Readings.{IsSmallMesh};
ghost use Rattle.mesh_stream.specs.Fills.{Fills, IsSourceOf};
ghost use Rattle.run_status.specs.Statuses.{IsOfStreams};

use assign::Leaves;
use cut_export::Numbered;
use cut_order::{number_by_roots, number_leaves};
use diamond_graph::Closing;
use mesh_stream::InputMesh;
use run_status::{Status, status_of_split};
use split_pass::split;
use std::alloc::Global;
use tpz_base::Tri;
use tpz_io::Blob;
use tri_stream::{StreamFault, StreamId, Streams};

/// Streams of triangles, and the one that has all.
#[derive(Drop)]
struct Source {
    streams: Streams,
    whole: StreamId,
}

// Adds triangles, in order, at the end of a stream.
fn fill<W: Blob>(
    streams: &mut Streams,
    work: &mut W,
    id: StreamId,
    tris: &[Tri],
) -> Result<(), StreamFault>
    requires live { IsLive streams.old id }
    requires stands { ForSome (W.held work.old) (Stands streams.old) }
    requires plain { All (IsHeld streams.old.l) tris.now }
    requires few { total streams.old + length tris.now ≤ 2 ^ 40 }
    ensures filled { OnOk result (Fills id tris.now streams.old streams.new (W.held work.old) (W.held work.new)) }
    ensures later { W.faults work.old ≤ W.faults work.new }
    ensures work_fault { result ≡ Err StreamFault.WorkFault → Rose (W.faults work.old) (W.faults work.new) }
    ensures work_damage { (offset : ℕ) → result ≡ Err (StreamFault.WorkDamage offset) → W.held work.old ≡ None }
{
    'tris: for t in tris {
        streams.append(work, id, *t)?;
    }
    Ok(())
}

// A stream of these triangles, which is the only one. The points of the input end at `end` in the work file.
fn stream_of<W: Blob>(
    alloc: Global,
    tris: Vec<Tri>,
    l: u8,
    end: u64,
    work: &mut W,
) -> Result<Source, Status>
    requires level { (1 ≤ l) × (l ≤ 30) }
    requires end { end ≤ 2 ^ 62 }
    requires plain { All (IsHeld l) tris.items }
    requires few { length tris.items ≤ 2147483648 }
    ensures holds { IfOk result (λ source. IsSourceOf l tris.items source.streams source.whole (W.held work.old) (W.held work.new)) }
    ensures status { IfErr result IsOfStreams }
    ensures work_fault { result ≡ Err Status.WorkFault → Rose (W.faults work.old) (W.faults work.new) }
    ensures work_damage { (offset : ℕ) → result ≡ Err (Status.WorkDamage offset) → W.held work.old ≡ None }
    ensures later { W.faults work.old ≤ W.faults work.new }
{
    let mut streams = Streams::new(alloc, end, l);
    let whole = streams.make()?;
    fill(&mut streams, work, whole, &tris)?;
    Ok(Source { streams, whole })
}

// Numbers the vertices of a mesh that is split by a cap.
fn number_by_cap<W: Blob>(
    alloc: Global,
    mesh: InputMesh,
    cap: u32,
    work: &mut W,
) -> Result<Numbered, Status>
    requires { IsSmallMesh mesh }
    ensures mesh { IfOk result (λ numbered. ForSome (W.held work.old) (λ _. numbered_mesh numbered ≡ mesh_for (Some cap) mesh.l mesh.tris.items)) }
    ensures numbering { IfOk result IsNumbering }
    ensures few { OnOk result (ForSome (W.held work.old) (λ _. length (split_for (Some cap) mesh.l mesh.tris.items) ≤ most_centres)) }
    ensures too_many { result ≡ Err Status.TooManyRecords → ForSome (W.held work.old) (λ _. most_centres < length (split_for (Some cap) mesh.l mesh.tris.items)) }
    ensures status { IfErr result (λ status. (status ≡ Status.TooManyRecords) ⊎ IsOfStreams status) }
    ensures work_fault { result ≡ Err Status.WorkFault → Rose (W.faults work.old) (W.faults work.new) }
    ensures work_damage { (offset : ℕ) → result ≡ Err (Status.WorkDamage offset) → W.held work.old ≡ None }
    ensures later { W.faults work.old ≤ W.faults work.new }
{
    let count = mesh.tris.as_slice().len();
    let mut source = stream_of(alloc, mesh.tris, mesh.l, mesh.end, work)?;
    let closing = Closing::new(alloc, mesh.l);
    let leaves = Leaves::new(alloc);
    let made = match split(
        &mut source.streams,
        work,
        source.whole,
        closing,
        leaves,
        cap,
    ) {
        Ok(made) => made,
        Err(fault) => return Err(status_of_split(fault)),
    };
    number_leaves(alloc, count, &mut source.streams, work, &made)
}

/// Numbers the vertices of a mesh in the order of its finest cut. Without a cap no diamond is split.
pub fn number<W: Blob>(
    alloc: Global,
    mesh: InputMesh,
    cap: Option<u32>,
    work: &mut W,
) -> Result<Numbered, Status>
    requires { IsSmallMesh mesh }
    ensures mesh { IfOk result (λ numbered. ForSome (W.held work.old) (λ _. numbered_mesh numbered ≡ mesh_for cap mesh.l mesh.tris.items)) }
    ensures numbering { IfOk result IsNumbering }
    ensures few { OnOk result (ForSome (W.held work.old) (λ _. length (split_for cap mesh.l mesh.tris.items) ≤ most_centres)) }
    ensures too_many { result ≡ Err Status.TooManyRecords → ForSome (W.held work.old) (λ _. most_centres < length (split_for cap mesh.l mesh.tris.items)) }
    ensures status { IfErr result (λ status. (status ≡ Status.TooManyRecords) ⊎ IsOfStreams status) }
    ensures work_fault { result ≡ Err Status.WorkFault → Rose (W.faults work.old) (W.faults work.new) }
    ensures work_damage { (offset : ℕ) → result ≡ Err (Status.WorkDamage offset) → W.held work.old ≡ None }
    ensures later { W.faults work.old ≤ W.faults work.new }
{
    match cap {
        Some(cap) => number_by_cap(alloc, mesh, cap, work),
        None => Ok(number_by_roots(alloc, mesh.tris)?),
    }
}
