// The triangles of a tetrahedron are divided among its two children.
ghost use Rattle.std.specs.Prelude.{◌≡◌, ◌≢◌, ◌≤◌, ◌<◌, ◌+◌, ◌*◌, ◌^◌, ◌++◌, ◌∷◌, [], ℕ, List, Some, None, Err, IfErr, OnOk, IsTrue, is_some};
ghost use Rattle.std.specs.Option.{ForSome, option_map};
ghost use Rattle.std.specs.FinMap as map;
ghost use Rattle.tpz_io.specs.Causes.{Rose};
ghost use Rattle.tpz_base.specs.declared.shape.Point.{Point};
ghost use Rattle.tpz_base.specs.Cuts.{has_diamond};
ghost use Rattle.tetra_name.specs.declared.shape.Tet.{Tet};
ghost use Rattle.tri_stream.specs.declared.names.StreamId.{StreamId};
ghost use Rattle.tpz_base.specs.Meshes.{is_whole, Mesh};
ghost use Rattle.tpz_base.specs.Diamonds.{level_of};
ghost use Rattle.tetra_name.specs.Names.{point_of, tetrahedron_of, IsBound, IsName};
ghost use Rattle.tri_stream.specs.declared.names.Cursor.{Cursor};
ghost use Rattle.tri_stream.specs.declared.fault.StreamFault.{StreamFault};
ghost use Rattle.tpz_base.specs.Cubes.{IsTriInCube};
ghost use Rattle.tri_stream.specs.Streams.{told_list, total, IsLive, Stands, Follows, size_of, Stays};
ghost use Rattle.split_pass.specs.declared.fault.SplitFault.{SplitFault};
ghost use Rattle.split_pass.specs.Crowds.{first_part, second_part};
ghost use Rattle.split_pass.specs.Moves.{LeavesAllBut};
ghost use Rattle.split_pass.specs.Spread.{AllBelow, HoldsThrough, IsChildName, IsKeyed};

use crate::fault::SplitFault;
use assign::{Leaves, Plane, stream_of};
use tetra_name::Tet;
use tpz_base::Tri;
use tpz_io::Blob;
use tri_stream::{StreamFault, StreamId, Streams};

/// The streams of the two children of a tetrahedron.
#[derive(Clone, Copy)]
pub(crate) struct Halves {
    pub(crate) first: StreamId,
    pub(crate) second: StreamId,
}

/// Adds a triangle to the stream of the child that it goes to.
fn send<B: Blob>(
    streams: &mut Streams,
    work: &mut B,
    plane: &Plane,
    t: Tri,
    halves: Halves,
) -> Result<(), StreamFault>
    requires first { IsLive streams.old halves.first }
    requires second { IsLive streams.old halves.second }
    requires apart { halves.first ≢ halves.second }
    requires stands { ForSome (B.held work.old) (Stands streams.old) }
    requires whole { IsTrue (is_whole t) }
    requires cube { IsTriInCube streams.old.l t }
    requires few { total streams.old < 2 ^ 40 }
    ensures first { OnOk result (ForSome (tetrahedron_of plane.now.l plane.now.name) (λ T. told_list streams.new (B.held work.new) halves.first ≡ option_map (λ list. list ++ first_part T (t ∷ [])) (told_list streams.old (B.held work.old) halves.first))) }
    ensures second { OnOk result (ForSome (tetrahedron_of plane.now.l plane.now.name) (λ T. told_list streams.new (B.held work.new) halves.second ≡ option_map (λ list. list ++ second_part T (t ∷ [])) (told_list streams.old (B.held work.old) halves.second))) }
    ensures live_first { OnOk result (IsLive streams.new halves.first) }
    ensures live_second { OnOk result (IsLive streams.new halves.second) }
    ensures sizes { OnOk result (size_of streams.new halves.first + size_of streams.new halves.second ≡ size_of streams.old halves.first + size_of streams.old halves.second + 1) }
    ensures others { OnOk result (LeavesAllBut halves.first halves.second streams.old streams.new (B.held work.old) (B.held work.new)) }
    ensures cursors { OnOk result ((at : Cursor) → Follows streams.old (B.held work.old) at → Follows streams.new (B.held work.new) at) }
    ensures total { OnOk result (total streams.new ≡ total streams.old + 1) }
    ensures stays { Stays streams.old streams.new (B.held work.new) }
    ensures later { B.faults work.old ≤ B.faults work.new }
    ensures work_fault { result ≡ Err StreamFault.WorkFault → Rose (B.faults work.old) (B.faults work.new) }
    ensures work_damage { (offset : ℕ) → result ≡ Err (StreamFault.WorkDamage offset) → B.held work.old ≡ None }
    ensures telling { is_some (B.held work.new) ≡ is_some (B.held work.old) }
{
    let id = if plane.side(&t) == 0 {
        halves.first
    } else {
        halves.second
    };
    streams.append(work, id, t)
}

/// Reads all of a stream and adds each triangle to the stream of the child that it goes to.
fn send_all<B: Blob>(
    streams: &mut Streams,
    work: &mut B,
    name: Tet,
    l: u8,
    id: StreamId,
    halves: Halves,
) -> Result<(), StreamFault>
    requires bound { IsBound l }
    requires name { IsName l name }
    requires level { level_of l (point_of name.centre) < 3 * l }
    requires live { IsLive streams.old id }
    requires first { IsLive streams.old halves.first }
    requires second { IsLive streams.old halves.second }
    requires apart { halves.first ≢ halves.second }
    requires apart_first { id ≢ halves.first }
    requires apart_second { id ≢ halves.second }
    requires stands { ForSome (B.held work.old) (Stands streams.old) }
    requires few { total streams.old ≤ 2 ^ 34 }
    requires size { size_of streams.old id ≤ 2 ^ 34 }
    ensures first { OnOk result (ForSome (tetrahedron_of l name) (λ T. ForSome (told_list streams.old (B.held work.old) id) (λ M. told_list streams.new (B.held work.new) halves.first ≡ option_map (λ list. list ++ first_part T M) (told_list streams.old (B.held work.old) halves.first)))) }
    ensures second { OnOk result (ForSome (tetrahedron_of l name) (λ T. ForSome (told_list streams.old (B.held work.old) id) (λ M. told_list streams.new (B.held work.new) halves.second ≡ option_map (λ list. list ++ second_part T M) (told_list streams.old (B.held work.old) halves.second)))) }
    ensures live_first { OnOk result (IsLive streams.new halves.first) }
    ensures live_second { OnOk result (IsLive streams.new halves.second) }
    ensures sizes { OnOk result (size_of streams.new halves.first + size_of streams.new halves.second ≡ size_of streams.old halves.first + size_of streams.old halves.second + size_of streams.old id) }
    ensures others { OnOk result (LeavesAllBut halves.first halves.second streams.old streams.new (B.held work.old) (B.held work.new)) }
    ensures total { OnOk result (total streams.new ≡ total streams.old + size_of streams.old id) }
    ensures stays { Stays streams.old streams.new (B.held work.new) }
    ensures later { B.faults work.old ≤ B.faults work.new }
    ensures work_fault { result ≡ Err StreamFault.WorkFault → Rose (B.faults work.old) (B.faults work.new) }
    ensures work_damage { (offset : ℕ) → result ≡ Err (StreamFault.WorkDamage offset) → B.held work.old ≡ None }
    ensures telling { is_some (B.held work.new) ≡ is_some (B.held work.old) }
{
    let plane = Plane::of(name, l);
    let mut at = streams.start(id);
    'triangles: while let Some(t) = streams.read(work, &mut at)? {
        send(streams, work, &plane, t, halves)?;
    }
    Ok(())
}

/// Divides the stream of a named tetrahedron among its two children: they are named in its place.
pub(crate) fn halve<B: Blob>(
    streams: &mut Streams,
    work: &mut B,
    leaves: &mut Leaves,
    name: Tet,
    first: Tet,
    second: Tet,
    l: u8,
    id: StreamId,
) -> Result<(), SplitFault>
    requires bound { IsBound l }
    requires name { IsName l name }
    requires level { level_of l (point_of name.centre) < 3 * l }
    requires first { IsChildName l 0 name first }
    requires second { IsChildName l 1 name second }
    requires named { map.get leaves.old name ≡ Some id }
    requires keyed { IsKeyed leaves.old streams.old }
    requires stands { ForSome (B.held work.old) (Stands streams.old) }
    requires few { total streams.old ≤ 2 ^ 33 }
    requires size { size_of streams.old id ≤ 2 ^ 33 }
    ensures keyed { OnOk result (IsKeyed leaves.new streams.new) }
    ensures below { OnOk result ((F : List Point) → IsTrue (has_diamond F (point_of name.centre)) → AllBelow l F leaves.old → AllBelow l F leaves.new) }
    ensures holds { OnOk result ((M : Mesh) → HoldsThrough l M leaves.old streams.old (B.held work.old) → HoldsThrough l M leaves.new streams.new (B.held work.new)) }
    ensures first { OnOk result ((x : StreamId) × (map.get leaves.new first ≡ Some x)) }
    ensures second { OnOk result ((x : StreamId) × (map.get leaves.new second ≡ Some x)) }
    ensures gone { OnOk result (map.get leaves.new name ≡ None) }
    ensures rest { OnOk result ((other : Tet) → other ≢ name → other ≢ first → other ≢ second → map.get leaves.new other ≡ map.get leaves.old other) }
    ensures sizes { OnOk result ((other : Tet) (x : StreamId) → other ≢ first → other ≢ second → map.get leaves.new other ≡ Some x → size_of streams.new x ≡ size_of streams.old x) }
    ensures total { OnOk result (total streams.new ≡ total streams.old) }
    ensures stays { Stays streams.old streams.new (B.held work.new) }
    ensures later { B.faults work.old ≤ B.faults work.new }
    ensures work_fault { result ≡ Err SplitFault.WorkFault → Rose (B.faults work.old) (B.faults work.new) }
    ensures work_damage { (offset : ℕ) → result ≡ Err (SplitFault.WorkDamage offset) → B.held work.old ≡ None }
    ensures telling { is_some (B.held work.new) ≡ is_some (B.held work.old) }
    ensures few_records { IfErr result (λ fault. fault ≢ SplitFault.TooManyRecords) }
{
    let halves = Halves {
        first: stream_of(streams, leaves, first)?,
        second: stream_of(streams, leaves, second)?,
    };
    send_all(streams, work, name, l, id, halves)?;
    leaves.take(name);
    streams.give_back(work, id)?;
    Ok(())
}
