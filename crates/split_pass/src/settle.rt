// The streams at which the search ended become those of the leaves.
ghost use Rattle.std.specs.Prelude.{◌≡◌, ◌≢◌, ◌≤◌, ◌^◌, ℕ, Some, None, Err, OnOk, IfErr, is_some};
ghost use Rattle.std.specs.Option.{ForSome};
ghost use Rattle.std.specs.FinMap as map;
ghost use Rattle.tpz_io.specs.Causes.{Rose};
ghost use Rattle.tpz_base.specs.Meshes.{Mesh};
ghost use Rattle.tetra_name.specs.declared.shape.Tet.{Tet};
ghost use Rattle.tetra_name.specs.Names.{IsBound, IsName};
ghost use Rattle.diamond_graph.specs.Graphs.{centres, IsGraph};
ghost use Rattle.tri_stream.specs.declared.names.StreamId.{StreamId};
ghost use Rattle.tri_stream.specs.Streams.{size_of, total, Stands, Stays};
ghost use Rattle.split_pass.specs.declared.fault.SplitFault.{SplitFault};
ghost use Rattle.split_pass.specs.Spread.{AllBelow, HoldsThrough, IsKeyed, IsSettled, IsSettling};

use crate::divide::halve;
use crate::fault::SplitFault;
use assign::Leaves;
use diamond_graph::Graph;
use tetra_name::{Tet, child};
use tpz_io::Blob;
use tri_stream::{StreamId, Streams};

/// Ends the stream of a name, which has no triangle.
fn end_empty<B: Blob>(
    streams: &mut Streams,
    work: &mut B,
    leaves: &mut Leaves,
    name: Tet,
    id: StreamId,
) -> Result<(), SplitFault>
    requires named { map.get leaves.old name ≡ Some id }
    requires keyed { IsKeyed leaves.old streams.old }
    requires empty { size_of streams.old id ≡ 0 }
    requires stands { ForSome (B.held work.old) (Stands streams.old) }
    ensures keyed { OnOk result (IsKeyed leaves.new streams.new) }
    ensures rest { OnOk result ((other : Tet) → other ≢ name → map.get leaves.new other ≡ map.get leaves.old other) }
    ensures gone { OnOk result (map.get leaves.new name ≡ None) }
    ensures holds { OnOk result ((l : ℕ) (M : Mesh) → HoldsThrough l M leaves.old streams.old (B.held work.old) → HoldsThrough l M leaves.new streams.new (B.held work.new)) }
    ensures sizes { OnOk result ((x : StreamId) → x ≢ id → size_of streams.new x ≡ size_of streams.old x) }
    ensures total { OnOk result (total streams.new ≡ total streams.old) }
    ensures stays { Stays streams.old streams.new (B.held work.new) }
    ensures later { B.faults work.old ≤ B.faults work.new }
    ensures work_fault { result ≡ Err SplitFault.WorkFault → Rose (B.faults work.old) (B.faults work.new) }
    ensures work_damage { (offset : ℕ) → result ≡ Err (SplitFault.WorkDamage offset) → B.held work.old ≡ None }
    ensures telling { is_some (B.held work.new) ≡ is_some (B.held work.old) }
    ensures few_records { IfErr result (λ fault. fault ≢ SplitFault.TooManyRecords) }
{
    leaves.take(name);
    streams.give_back(work, id)?;
    Ok(())
}

/// Divides the stream of a name as far as its tetrahedron and those below it are split, and ends those without triangles. It calls itself once a
/// level.
fn settle<B: Blob>(
    streams: &mut Streams,
    work: &mut B,
    graph: &Graph,
    leaves: &mut Leaves,
    name: Tet,
    l: u8,
) -> Result<(), SplitFault>
    requires l { graph.now.l ≡ l }
    requires graph { IsGraph graph.now }
    requires bound { IsBound l }
    requires below { AllBelow l (centres graph.now) leaves.old }
    requires keyed { IsKeyed leaves.old streams.old }
    requires stands { ForSome (B.held work.old) (Stands streams.old) }
    requires few { total streams.old ≤ 2 ^ 33 }
    ensures below { OnOk result (AllBelow l (centres graph.now) leaves.new) }
    ensures keyed { OnOk result (IsKeyed leaves.new streams.new) }
    ensures holds { OnOk result ((M : Mesh) → HoldsThrough l M leaves.old streams.old (B.held work.old) → HoldsThrough l M leaves.new streams.new (B.held work.new)) }
    ensures settles { OnOk result (IsSettling (centres graph.now) name leaves.old leaves.new streams.old streams.new) }
    ensures total { OnOk result (total streams.new ≡ total streams.old) }
    ensures stays { Stays streams.old streams.new (B.held work.new) }
    ensures later { B.faults work.old ≤ B.faults work.new }
    ensures work_fault { result ≡ Err SplitFault.WorkFault → Rose (B.faults work.old) (B.faults work.new) }
    ensures work_damage { (offset : ℕ) → result ≡ Err (SplitFault.WorkDamage offset) → B.held work.old ≡ None }
    ensures telling { is_some (B.held work.new) ≡ is_some (B.held work.old) }
    ensures few_records { IfErr result (λ fault. fault ≢ SplitFault.TooManyRecords) }
{
    let Some(id) = leaves.stream(name) else {
        return Ok(());
    };
    if streams.count(id) == 0 {
        return end_empty(streams, work, leaves, name, id);
    }
    if !graph.has(name.centre) {
        return Ok(());
    }
    let first = child(name, 0, l);
    let second = child(name, 1, l);
    halve(streams, work, leaves, name, first, second, l, id)?;
    settle(streams, work, graph, leaves, first, l)?;
    settle(streams, work, graph, leaves, second, l)
}

/// Settles all named streams: each is then that of a leaf, and has a triangle.
pub(crate) fn settle_all<B: Blob>(
    streams: &mut Streams,
    work: &mut B,
    graph: &Graph,
    leaves: &mut Leaves,
) -> Result<(), SplitFault>
    requires bound { IsBound graph.now.l }
    requires below { AllBelow graph.now.l (centres graph.now) leaves.old }
    requires keyed { IsKeyed leaves.old streams.old }
    requires stands { ForSome (B.held work.old) (Stands streams.old) }
    requires few { total streams.old ≤ 2 ^ 33 }
    ensures below { OnOk result (AllBelow graph.now.l (centres graph.now) leaves.new) }
    ensures keyed { OnOk result (IsKeyed leaves.new streams.new) }
    ensures holds { OnOk result ((M : Mesh) → HoldsThrough graph.now.l M leaves.old streams.old (B.held work.old) → HoldsThrough graph.now.l M leaves.new streams.new (B.held work.new)) }
    ensures settled { OnOk result ((name : Tet) (id : StreamId) → map.get leaves.new name ≡ Some id → IsSettled (centres graph.now) streams.new name id) }
    ensures total { OnOk result (total streams.new ≡ total streams.old) }
    ensures stays { Stays streams.old streams.new (B.held work.new) }
    ensures later { B.faults work.old ≤ B.faults work.new }
    ensures work_fault { result ≡ Err SplitFault.WorkFault → Rose (B.faults work.old) (B.faults work.new) }
    ensures work_damage { (offset : ℕ) → result ≡ Err (SplitFault.WorkDamage offset) → B.held work.old ≡ None }
    ensures telling { is_some (B.held work.new) ≡ is_some (B.held work.old) }
    ensures few_records { IfErr result (λ fault. fault ≢ SplitFault.TooManyRecords) }
{
    let l = graph.l();
    let names = leaves.names()?;
    'names: for name in names.as_slice() {
        settle(streams, work, graph, leaves, *name, l)?;
    }
    Ok(())
}
