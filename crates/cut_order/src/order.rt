// The triangles of a mesh that is split: leaf after leaf in the order of its finest cut, with their vertices numbered.
ghost use Rattle.std.specs.Prelude.{◌≡◌, ◌≤◌, ◌<◌, ◌*◌, ◌++◌, ◌∷◌, [], ℕ, List, Err, None, flat_map, is_some, take, IfOk, IfErr, IfSome, OnOk};
ghost use Rattle.std.specs.Option.{ForSome};
ghost use Rattle.tpz_io.specs.Causes.{Rose};
ghost use Rattle.tpz_base.specs.Meshes.{Mesh};
ghost use Rattle.tpz_base.specs.Tetrahedra.{children, parts, roots};
ghost use Rattle.tpz_base.specs.Cuts.{cut_mesh};
ghost use Rattle.tpz_base.specs.Diamonds.{level_of};
ghost use Rattle.tetra_name.specs.Names.{point_of, tetrahedron_of, IsCentre, IsName};
ghost use Rattle.diamond_graph.specs.Graphs.{centres, IsGraph};
ghost use Rattle.tri_stream.specs.Streams.{told_list, IsLive, Stands};
ghost use Rattle.assign.specs.Leaf.{leaf_patch};
ghost use Rattle.run_status.specs.declared.status.Status.{Status};
ghost use Rattle.assign.specs.Standing.{HoldsPatches};
ghost use Rattle.cut_order.specs.Leaves.{Adds, AreLive, KeepsStreams};
ghost use Rattle.run_status.specs.Statuses.{IsOfStreams};
ghost use Rattle.cut_export.specs.Numbering.{numbered_mesh, IsNumbering};

use assign::Split;
use cut_export::Numbered;
use run_status::Status;
use std::alloc::Global;
use tetra_name::{Half, Tet, child, member_count, root};
use tpz_io::Blob;
use tri_stream::{StreamId, Streams};

// Adds the triangles of a stream, in order, at the end of the mesh.
fn add_stream<W: Blob>(
    numbered: &mut Numbered,
    streams: &mut Streams,
    work: &mut W,
    id: StreamId,
) -> Result<(), Status>
    requires numbering { IsNumbering numbered.old }
    requires live { IsLive streams.old id }
    requires stands { ForSome (W.held work.old) (Stands streams.old) }
    ensures mesh { OnOk result (ForSome (told_list streams.old (W.held work.old) id) (λ M. numbered_mesh numbered.new ≡ numbered_mesh numbered.old ++ M)) }
    ensures numbering { OnOk result (IsNumbering numbered.new) }
    ensures kept { KeepsStreams streams.old streams.new (W.held work.old) (W.held work.new) }
    ensures later { W.faults work.old ≤ W.faults work.new }
    ensures telling { is_some (W.held work.new) ≡ is_some (W.held work.old) }
    ensures status { IfErr result IsOfStreams }
    ensures work_fault { result ≡ Err Status.WorkFault → Rose (W.faults work.old) (W.faults work.new) }
    ensures work_damage { (offset : ℕ) → result ≡ Err (Status.WorkDamage offset) → W.held work.old ≡ None }
{
    let mut at = streams.start(id);
    'triangles: while let Some(t) = streams.read(work, &mut at)? {
        numbered.add(&t)?;
    }
    Ok(())
}

// Adds the triangles of a tetrahedron, where it is a leaf that has any.
fn add_leaf<W: Blob>(
    numbered: &mut Numbered,
    streams: &mut Streams,
    work: &mut W,
    split: &Split,
    name: Tet,
) -> Result<(), Status>
    requires numbering { IsNumbering numbered.old }
    requires live { AreLive split.now.leaves streams.old }
    requires stands { ForSome (W.held work.old) (Stands streams.old) }
    ensures mesh { OnOk result (IfSome (tetrahedron_of split.now.graph.l name) (λ T.
        Adds split.now.graph.l (centres split.now.graph) split.now.leaves streams.old (W.held work.old) (T ∷ []) (numbered_mesh numbered.old) (numbered_mesh numbered.new))) }
    ensures numbering { OnOk result (IsNumbering numbered.new) }
    ensures kept { KeepsStreams streams.old streams.new (W.held work.old) (W.held work.new) }
    ensures later { W.faults work.old ≤ W.faults work.new }
    ensures telling { is_some (W.held work.new) ≡ is_some (W.held work.old) }
    ensures status { IfErr result IsOfStreams }
    ensures work_fault { result ≡ Err Status.WorkFault → Rose (W.faults work.old) (W.faults work.new) }
    ensures work_damage { (offset : ℕ) → result ≡ Err (Status.WorkDamage offset) → W.held work.old ≡ None }
{
    if split.graph.has(name.centre) {
        return Ok(());
    }
    match split.leaves.stream(name) {
        Some(id) => add_stream(numbered, streams, work, id),
        None => Ok(()),
    }
}

// Adds what the two children of a tetrahedron above the last level add.
fn add_children<W: Blob>(
    numbered: &mut Numbered,
    streams: &mut Streams,
    work: &mut W,
    split: &Split,
    name: Tet,
) -> Result<(), Status>
    requires numbering { IsNumbering numbered.old }
    requires live { AreLive split.now.leaves streams.old }
    requires stands { ForSome (W.held work.old) (Stands streams.old) }
    requires name { IsName split.now.graph.l name }
    requires level { level_of split.now.graph.l (point_of name.centre) < 3 * split.now.graph.l }
    ensures mesh { OnOk result (IfSome (tetrahedron_of split.now.graph.l name) (λ T.
        Adds split.now.graph.l (centres split.now.graph) split.now.leaves streams.old (W.held work.old) (children T) (numbered_mesh numbered.old) (numbered_mesh numbered.new))) }
    ensures numbering { OnOk result (IsNumbering numbered.new) }
    ensures kept { KeepsStreams streams.old streams.new (W.held work.old) (W.held work.new) }
    ensures later { W.faults work.old ≤ W.faults work.new }
    ensures telling { is_some (W.held work.new) ≡ is_some (W.held work.old) }
    ensures status { IfErr result IsOfStreams }
    ensures work_fault { result ≡ Err Status.WorkFault → Rose (W.faults work.old) (W.faults work.new) }
    ensures work_damage { (offset : ℕ) → result ≡ Err (Status.WorkDamage offset) → W.held work.old ≡ None }
{
    let l = split.graph.l();
    add_leaf(numbered, streams, work, split, child(name, 0, l))?;
    add_leaf(numbered, streams, work, split, child(name, 1, l))
}

// Adds what the members' children of a diamond above the last level add: members by slot, child 0 before child 1.
fn add_diamond<W: Blob>(
    numbered: &mut Numbered,
    streams: &mut Streams,
    work: &mut W,
    split: &Split,
    centre: Half,
) -> Result<(), Status>
    requires numbering { IsNumbering numbered.old }
    requires live { AreLive split.now.leaves streams.old }
    requires stands { ForSome (W.held work.old) (Stands streams.old) }
    requires centre { IsCentre split.now.graph.l (point_of centre) }
    requires level { level_of split.now.graph.l (point_of centre) < 3 * split.now.graph.l }
    ensures mesh { OnOk result (
        Adds split.now.graph.l (centres split.now.graph) split.now.leaves streams.old (W.held work.old) (parts split.now.graph.l (point_of centre)) (numbered_mesh numbered.old) (numbered_mesh numbered.new)) }
    ensures numbering { OnOk result (IsNumbering numbered.new) }
    ensures kept { KeepsStreams streams.old streams.new (W.held work.old) (W.held work.new) }
    ensures later { W.faults work.old ≤ W.faults work.new }
    ensures telling { is_some (W.held work.new) ≡ is_some (W.held work.old) }
    ensures status { IfErr result IsOfStreams }
    ensures work_fault { result ≡ Err Status.WorkFault → Rose (W.faults work.old) (W.faults work.new) }
    ensures work_damage { (offset : ℕ) → result ≡ Err (Status.WorkDamage offset) → W.held work.old ≡ None }
{
    let count = member_count(centre, split.graph.l());
    'members: for slot in 0..count {
        add_children(numbered, streams, work, split, Tet { centre, slot })?;
    }
    Ok(())
}

// Adds what the roots add.
fn add_roots<W: Blob>(
    numbered: &mut Numbered,
    streams: &mut Streams,
    work: &mut W,
    split: &Split,
) -> Result<(), Status>
    requires numbering { IsNumbering numbered.old }
    requires live { AreLive split.now.leaves streams.old }
    requires stands { ForSome (W.held work.old) (Stands streams.old) }
    ensures mesh { OnOk result (
        Adds split.now.graph.l (centres split.now.graph) split.now.leaves streams.old (W.held work.old) (roots split.now.graph.l) (numbered_mesh numbered.old) (numbered_mesh numbered.new)) }
    ensures numbering { OnOk result (IsNumbering numbered.new) }
    ensures kept { KeepsStreams streams.old streams.new (W.held work.old) (W.held work.new) }
    ensures later { W.faults work.old ≤ W.faults work.new }
    ensures telling { is_some (W.held work.new) ≡ is_some (W.held work.old) }
    ensures status { IfErr result IsOfStreams }
    ensures work_fault { result ≡ Err Status.WorkFault → Rose (W.faults work.old) (W.faults work.new) }
    ensures work_damage { (offset : ℕ) → result ≡ Err (Status.WorkDamage offset) → W.held work.old ≡ None }
{
    let l = split.graph.l();
    'roots: for slot in 0..6u8 {
        add_leaf(numbered, streams, work, split, root(slot, l))?;
    }
    Ok(())
}

// Adds what the diamonds that are split add, in record order.
fn add_diamonds<W: Blob>(
    numbered: &mut Numbered,
    streams: &mut Streams,
    work: &mut W,
    split: &Split,
) -> Result<(), Status>
    requires numbering { IsNumbering numbered.old }
    requires live { AreLive split.now.leaves streams.old }
    requires stands { ForSome (W.held work.old) (Stands streams.old) }
    ensures mesh { OnOk result (
        Adds split.now.graph.l (centres split.now.graph) split.now.leaves streams.old (W.held work.old) (flat_map (parts split.now.graph.l) (centres split.now.graph)) (numbered_mesh numbered.old) (numbered_mesh numbered.new)) }
    ensures numbering { OnOk result (IsNumbering numbered.new) }
    ensures kept { KeepsStreams streams.old streams.new (W.held work.old) (W.held work.new) }
    ensures later { W.faults work.old ≤ W.faults work.new }
    ensures telling { is_some (W.held work.new) ≡ is_some (W.held work.old) }
    ensures status { IfErr result IsOfStreams }
    ensures work_fault { result ≡ Err Status.WorkFault → Rose (W.faults work.old) (W.faults work.new) }
    ensures work_damage { (offset : ℕ) → result ≡ Err (Status.WorkDamage offset) → W.held work.old ≡ None }
{
    let count = split.graph.len();
    'diamonds: for i in 0..count {
        add_diamond(numbered, streams, work, split, split.graph.centre_at(i))?;
    }
    Ok(())
}

/// The triangles of the finest cut in its order, with their vertices numbered in the order of first use: the leaves among the roots, by slot, and
/// then, for each diamond that is split, in record order, those among its members' children.
pub fn number_leaves<W: Blob>(
    alloc: Global,
    count: usize,
    streams: &mut Streams,
    work: &mut W,
    split: &Split,
) -> Result<Numbered, Status>
    requires live { AreLive split.now.leaves streams.old }
    requires stands { ForSome (W.held work.old) (Stands streams.old) }
    ensures mesh { IfOk result (λ numbered. (M : Mesh)
        → HoldsPatches split.now.graph.l (centres split.now.graph) M split.now.leaves streams.old (W.held work.old)
        → numbered_mesh numbered ≡ cut_mesh split.now.graph.l (leaf_patch split.now.graph.l (centres split.now.graph) M) (centres split.now.graph)) }
    ensures numbering { IfOk result IsNumbering }
    ensures later { W.faults work.old ≤ W.faults work.new }
    ensures status { IfErr result IsOfStreams }
    ensures work_fault { result ≡ Err Status.WorkFault → Rose (W.faults work.old) (W.faults work.new) }
    ensures work_damage { (offset : ℕ) → result ≡ Err (Status.WorkDamage offset) → W.held work.old ≡ None }
{
    let mut numbered = Numbered::with_room(alloc, count)?;
    add_roots(&mut numbered, streams, work, split)?;
    add_diamonds(&mut numbered, streams, work, split)?;
    Ok(numbered)
}
