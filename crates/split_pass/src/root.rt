// The triangles of a stream are copied into the streams of the six roots.
ghost use Rattle.std.specs.Prelude.{◌≡◌, ◌≢◌, ◌≤◌, ◌<◌, ◌+◌, ◌^◌, ◌++◌, ◌∷◌, [], ℕ, List, Some, None, Err, IfOk, IfErr, OnOk, IsTrue, filter, length, slice_get, is_some};
ghost use Rattle.std.specs.Option.{ForSome, option_map};
ghost use Rattle.std.specs.FinMap as map;
ghost use Rattle.tpz_io.specs.Causes.{Rose};
ghost use Rattle.tetra_name.specs.declared.shape.Tet.{Tet};
ghost use Rattle.tetra_name.specs.Names.{root_at, tetrahedron_of, IsBound};
ghost use Rattle.tpz_base.specs.Meshes.{is_whole, Mesh};
ghost use Rattle.tpz_base.specs.Roots.{is_in_root, root_part};
ghost use Rattle.tri_stream.specs.declared.names.Cursor.{Cursor};
ghost use Rattle.tri_stream.specs.declared.names.StreamId.{StreamId};
ghost use Rattle.tri_stream.specs.declared.fault.StreamFault.{StreamFault};
ghost use Rattle.tpz_base.specs.Cubes.{IsTriInCube};
ghost use Rattle.tri_stream.specs.Streams.{told_list, total, IsLive, Stands, Follows, size_of, Stays};
ghost use Rattle.split_pass.specs.declared.fault.SplitFault.{SplitFault};
ghost use Rattle.split_pass.specs.Spread.{AllBelow, HoldsThrough, IsKeyed};
ghost use Rattle.split_pass.specs.Moves.{AddsAll, AreApart, AreLive, IsNoneOf, LeavesAllOthers, MakesAll};

use crate::fault::SplitFault;
use assign::{Leaves, root_of};
use std::alloc::AllocError;
use tetra_name::root;
use tpz_base::Tri;
use tpz_io::Blob;
use tri_stream::{StreamFault, StreamId, Streams};

/// The stream at a slot.
pub(crate) fn stream_at(ids: [StreamId; 6], slot: u8) -> StreamId
    requires { slot < 6 }
    ensures { slice_get ids slot ≡ Some result }
{
    ids[usize::from(slot)]
}

/// Adds a triangle to the stream of its root.
fn send<B: Blob>(
    streams: &mut Streams,
    work: &mut B,
    t: Tri,
    ids: [StreamId; 6],
) -> Result<(), StreamFault>
    requires live { AreLive ids streams.old }
    requires apart { AreApart ids }
    requires stands { ForSome (B.held work.old) (Stands streams.old) }
    requires whole { IsTrue (is_whole t) }
    requires cube { IsTriInCube streams.old.l t }
    requires few { total streams.old < 2 ^ 40 }
    ensures lists { OnOk result ((k : ℕ) (x : StreamId) → slice_get ids k ≡ Some x → told_list streams.new (B.held work.new) x ≡ option_map (λ list. list ++ filter (is_in_root k) (t ∷ [])) (told_list streams.old (B.held work.old) x)) }
    ensures live { OnOk result (AreLive ids streams.new) }
    ensures others { OnOk result (LeavesAllOthers ids streams.old streams.new (B.held work.old) (B.held work.new)) }
    ensures cursors { OnOk result ((at : Cursor) → Follows streams.old (B.held work.old) at → Follows streams.new (B.held work.new) at) }
    ensures total { OnOk result (total streams.new ≡ total streams.old + 1) }
    ensures stays { Stays streams.old streams.new (B.held work.new) }
    ensures later { B.faults work.old ≤ B.faults work.new }
    ensures work_fault { result ≡ Err StreamFault.WorkFault → Rose (B.faults work.old) (B.faults work.new) }
    ensures work_damage { (offset : ℕ) → result ≡ Err (StreamFault.WorkDamage offset) → B.held work.old ≡ None }
    ensures telling { is_some (B.held work.new) ≡ is_some (B.held work.old) }
{
    let slot = root_of(&t);
    let id = stream_at(ids, slot);
    streams.append(work, id, t)
}

/// Reads all of a stream and adds each triangle to the stream of its root.
fn send_all<B: Blob>(
    streams: &mut Streams,
    work: &mut B,
    whole: StreamId,
    ids: [StreamId; 6],
) -> Result<(), StreamFault>
    requires whole { IsLive streams.old whole }
    requires other { IsNoneOf ids whole }
    requires live { AreLive ids streams.old }
    requires apart { AreApart ids }
    requires stands { ForSome (B.held work.old) (Stands streams.old) }
    requires few { total streams.old ≤ 2 ^ 33 }
    requires size { size_of streams.old whole ≤ 2 ^ 33 }
    ensures lists { OnOk result (ForSome (told_list streams.old (B.held work.old) whole) (λ M. (k : ℕ) (x : StreamId) → slice_get ids k ≡ Some x → told_list streams.new (B.held work.new) x ≡ option_map (λ list. list ++ root_part M k) (told_list streams.old (B.held work.old) x))) }
    ensures live { OnOk result (AreLive ids streams.new) }
    ensures others { OnOk result (LeavesAllOthers ids streams.old streams.new (B.held work.old) (B.held work.new)) }
    ensures total { OnOk result (total streams.new ≡ total streams.old + size_of streams.old whole) }
    ensures stays { Stays streams.old streams.new (B.held work.new) }
    ensures later { B.faults work.old ≤ B.faults work.new }
    ensures work_fault { result ≡ Err StreamFault.WorkFault → Rose (B.faults work.old) (B.faults work.new) }
    ensures work_damage { (offset : ℕ) → result ≡ Err (StreamFault.WorkDamage offset) → B.held work.old ≡ None }
    ensures telling { is_some (B.held work.new) ≡ is_some (B.held work.old) }
{
    let mut at = streams.start(whole);
    'triangles: while let Some(t) = streams.read(work, &mut at)? {
        send(streams, work, t, ids)?;
    }
    Ok(())
}

/// Six streams without triangles.
fn make_roots(streams: &mut Streams) -> Result<[StreamId; 6], AllocError>
    ensures six { IfOk result (λ ids. length ids ≡ 6) }
    ensures made { IfOk result (λ ids. MakesAll ids streams.old streams.new) }
    ensures base { streams.new.base ≡ streams.old.base }
    ensures l { streams.new.l ≡ streams.old.l }
    ensures stands { (bytes : List ℕ) → Stands streams.old bytes → Stands streams.new bytes }
{
    let sixth = streams.make()?;
    let fifth = streams.make()?;
    let fourth = streams.make()?;
    let third = streams.make()?;
    let second = streams.make()?;
    let first = streams.make()?;
    Ok([first, second, third, fourth, fifth, sixth])
}

/// Six new streams, of the triangles of each root by its slot. The stream that is read stays.
pub(crate) fn root_streams<B: Blob>(
    streams: &mut Streams,
    work: &mut B,
    whole: StreamId,
) -> Result<[StreamId; 6], SplitFault>
    requires whole { IsLive streams.old whole }
    requires stands { ForSome (B.held work.old) (Stands streams.old) }
    requires few { total streams.old ≤ 2 ^ 33 }
    requires size { size_of streams.old whole ≤ 2 ^ 33 }
    ensures six { IfOk result (λ ids. length ids ≡ 6) }
    ensures lists { IfOk result (λ ids. ForSome (told_list streams.old (B.held work.old) whole) (λ M. (k : ℕ) (x : StreamId) → slice_get ids k ≡ Some x → told_list streams.new (B.held work.new) x ≡ Some (root_part M k))) }
    ensures adds { IfOk result (λ ids. AddsAll ids streams.old streams.new (B.held work.old) (B.held work.new)) }
    ensures total { OnOk result (total streams.new ≡ total streams.old + size_of streams.old whole) }
    ensures stays { Stays streams.old streams.new (B.held work.new) }
    ensures later { B.faults work.old ≤ B.faults work.new }
    ensures work_fault { result ≡ Err SplitFault.WorkFault → Rose (B.faults work.old) (B.faults work.new) }
    ensures work_damage { (offset : ℕ) → result ≡ Err (SplitFault.WorkDamage offset) → B.held work.old ≡ None }
    ensures telling { is_some (B.held work.new) ≡ is_some (B.held work.old) }
    ensures few_records { IfErr result (λ fault. fault ≢ SplitFault.TooManyRecords) }
{
    let ids = make_roots(streams)?;
    send_all(streams, work, whole, ids)?;
    Ok(ids)
}

/// Names six streams by the roots.
fn set_roots(leaves: &mut Leaves, l: u8, ids: [StreamId; 6]) -> Result<(), AllocError>
    requires bound { IsBound l }
    requires empty { leaves.old ≡ map.empty }
    ensures names { OnOk result ((k : ℕ) (x : StreamId) → k < 6 → slice_get ids k ≡ Some x → (name : Tet) × (tetrahedron_of l name ≡ root_at l k) × (map.get leaves.new name ≡ Some x)) }
    ensures only { OnOk result ((name : Tet) (x : StreamId) → map.get leaves.new name ≡ Some x → (k : ℕ) × (k < 6) × (slice_get ids k ≡ Some x) × (tetrahedron_of l name ≡ root_at l k)) }
{
    'slots: for slot in 0..6 {
        leaves.set(root(slot, l), stream_at(ids, slot))?;
    }
    Ok(())
}

/// The stream of each root, named in the place of the one that had all.
pub(crate) fn name_roots<B: Blob>(
    streams: &mut Streams,
    work: &mut B,
    leaves: &mut Leaves,
    l: u8,
    whole: StreamId,
) -> Result<(), SplitFault>
    requires bound { IsBound l }
    requires empty { leaves.old ≡ map.empty }
    requires live { IsLive streams.old whole }
    requires only { (id : StreamId) → IsLive streams.old id → id ≡ whole }
    requires stands { ForSome (B.held work.old) (Stands streams.old) }
    requires few { size_of streams.old whole ≤ 2147483648 }
    ensures keyed { OnOk result (IsKeyed leaves.new streams.new) }
    ensures below { OnOk result (AllBelow l [] leaves.new) }
    ensures holds { OnOk result (ForSome (told_list streams.old (B.held work.old) whole) (λ M. HoldsThrough l M leaves.new streams.new (B.held work.new))) }
    ensures roots { OnOk result ((name : Tet) (k : ℕ) → k < 6 → tetrahedron_of l name ≡ root_at l k → (x : StreamId) × (map.get leaves.new name ≡ Some x)) }
    ensures total { OnOk result (total streams.new ≡ size_of streams.old whole) }
    ensures stays { Stays streams.old streams.new (B.held work.new) }
    ensures later { B.faults work.old ≤ B.faults work.new }
    ensures work_fault { result ≡ Err SplitFault.WorkFault → Rose (B.faults work.old) (B.faults work.new) }
    ensures work_damage { (offset : ℕ) → result ≡ Err (SplitFault.WorkDamage offset) → B.held work.old ≡ None }
    ensures telling { is_some (B.held work.new) ≡ is_some (B.held work.old) }
    ensures few_records { IfErr result (λ fault. fault ≢ SplitFault.TooManyRecords) }
{
    let ids = root_streams(streams, work, whole)?;
    streams.give_back(work, whole)?;
    set_roots(leaves, l, ids)?;
    Ok(())
}
