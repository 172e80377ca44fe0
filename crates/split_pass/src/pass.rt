// The call that splits.
ghost use Rattle.std.specs.Prelude.{◌≡◌, ◌≤◌, ◌<◌, [], ℕ, List, Some, None, Err, IfOk, length, is_some};
ghost use Rattle.std.specs.Option.{ForSome};
ghost use Rattle.std.specs.FinMap as map;
ghost use Rattle.tpz_io.specs.Causes.{Rose};
ghost use Rattle.tetra_name.specs.declared.shape.Tet.{Tet};
ghost use Rattle.diamond_graph.specs.Adding.{most_centres};
ghost use Rattle.diamond_graph.specs.Graphs.{centres, IsGraph};
ghost use Rattle.tri_stream.specs.declared.names.StreamId.{StreamId};
ghost use Rattle.tri_stream.specs.Streams.{told_list, total, IsLive, Stands, size_of, Stays};
ghost use Rattle.assign.specs.Splits.{split_set};
ghost use Rattle.assign.specs.Standing.{HoldsPatches, NamesStreams};
ghost use Rattle.split_pass.specs.declared.fault.SplitFault.{SplitFault};

use crate::fault::SplitFault;
use crate::find::find_all;
use crate::settle::settle_all;
use assign::{Leaves, Split};
use diamond_graph::Closing;
use tpz_io::Blob;
use tri_stream::{StreamId, Streams};

/// Splits the triangles of a stream: the graph holds the diamonds of the tetrahedra above the last level through which more than `cap` of them go,
/// and all ancestors of these; each leaf of the graph that has a triangle gets a stream of its triangles, in their order. The stream ends.
///
/// TooManyRecords comes exactly where the graph would have more than 67,108,864 diamonds, unless memory ran out or the work file failed. After a
/// refusal the streams aren't used again.
pub fn split<B: Blob>(
    streams: &mut Streams,
    work: &mut B,
    whole: StreamId,
    mut closing: Closing,
    mut leaves: Leaves,
    cap: u32,
) -> Result<Split, SplitFault>
    requires closing { closing.set ≡ [] }
    requires leaves { leaves ≡ map.empty }
    requires l { closing.l ≡ streams.old.l }
    // The stream is the only one.
    requires whole { IsLive streams.old whole }
    requires only { (id : StreamId) → IsLive streams.old id → id ≡ whole }
    requires few { size_of streams.old whole ≤ 2147483648 }
    requires stands { ForSome (B.held work.old) (Stands streams.old) }
    // Where the bytes are told: the graph, and the streams of its leaves.
    ensures graph { IfOk result (λ split. ForSome (told_list streams.old (B.held work.old) whole) (λ M. centres split.graph ≡ split_set streams.old.l cap M)) }
    ensures patches { IfOk result (λ split. ForSome (told_list streams.old (B.held work.old) whole) (λ M.
        HoldsPatches streams.old.l (split_set streams.old.l cap M) M split.leaves streams.new (B.held work.new))) }
    ensures few { IfOk result (λ split. ForSome (told_list streams.old (B.held work.old) whole) (λ M. length (split_set streams.old.l cap M) ≤ most_centres)) }
    ensures too_many { result ≡ Err SplitFault.TooManyRecords → ForSome (told_list streams.old (B.held work.old) whole) (λ M.
        most_centres < length (split_set streams.old.l cap M)) }
    // Whether they are told or not:
    ensures l { IfOk result (λ split. split.graph.l ≡ streams.old.l) }
    ensures names { IfOk result (λ split. NamesStreams streams.old.l (centres split.graph) split.leaves streams.new) }
    ensures only { IfOk result (λ split. (id : StreamId) → IsLive streams.new id → (name : Tet) × (map.get split.leaves name ≡ Some id)) }
    ensures total { IfOk result (λ split. total streams.new ≡ size_of streams.old whole) }
    ensures stays { Stays streams.old streams.new (B.held work.new) }
    ensures later { B.faults work.old ≤ B.faults work.new }
    ensures work_fault { result ≡ Err SplitFault.WorkFault → Rose (B.faults work.old) (B.faults work.new) }
    ensures work_damage { (offset : ℕ) → result ≡ Err (SplitFault.WorkDamage offset) → B.held work.old ≡ None }
    ensures telling { is_some (B.held work.new) ≡ is_some (B.held work.old) }
{
    let l = closing.l();
    find_all(streams, work, &mut closing, &mut leaves, l, whole, cap)?;
    let graph = closing.seal()?;
    settle_all(streams, work, &graph, &mut leaves)?;
    Ok(Split { graph, leaves })
}
