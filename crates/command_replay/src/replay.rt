// The command `replay`: the lines of a script, one after another, over a store that was opened.
ghost use Rattle.std.specs.Prelude.{◌≡◌, ◌≤◌, ◌<◌, ◌+◌, ◌⊎◌, ◌∷◌, [], ℕ, None, Some, Ok, Err, IsTrue, Contains, length, IfOk, IfErr, OnOk, OnErr, is_ok, string_bytes, unsigned_abs, ◌^◌, ◌-ℤ◌};
ghost use Rattle.std.specs.Option.{ForSome};
ghost use Rattle.tpz_io.specs.Causes.{Rose};
ghost use Rattle.tpz_io.specs.Told.{followed_by};
ghost use Rattle.tpz_io.specs.Writes.{Note, Wrote, WrotePrefix};
ghost use Rattle.tpz_base.specs.Boxes.{IsNearEye};
ghost use Rattle.tpz_base.specs.Texts.{text};
ghost use Rattle.script_text.specs.Commands.{is_near, is_in_bounds};
ghost use Rattle.script_text.specs.declared.line.Line.{Line as Command};
ghost use Rattle.view_cut.specs.Views.{counted_by, wanted_places};
ghost use Rattle.view_cut.specs.Sets.{centres_at};
ghost use Rattle.cut_export.specs.Parts.{row_of};
ghost use Rattle.patch_file.specs.declared.shape.StoreBad.{StoreBad};
ghost use Rattle.patch_file.specs.Asking.{HasAsked, RoseBy};
ghost use Rattle.patch_file.specs.Patches.{mesh_of_cut};
ghost use Rattle.patch_file.specs.Reading.{IsRightParams};
ghost use Rattle.run_status.specs.declared.status.Status.{Status};
ghost use Rattle.run_status.specs.declared.status.ReadAt.{ReadAt};
ghost use Rattle.command_replay.specs.Plays.{Play, asks, lines_of, played, replay_note, shows, step, view_at};
ghost use Rattle.cut_blocks.specs.WrongBlocks.{first_wrong, wrong_at};
ghost use Rattle.command_replay.specs.Playing.{HasPlayed, IsPlaying, IsReady};
ghost use Rattle.cut_blocks.specs.Shown.{is_unread, stored_in, AreCounted};
ghost use Rattle.run_status.specs.Statuses.{IsOfLines, IsOfReplay};
ghost use Rattle.command_replay.specs.ReplayRuns.{ReplayRun};
ghost use Rattle.run_record.specs.Seen.{BlobSeen, SourceSeen};

use cut_blocks::{read_cut, views_of};
use cut_export::write_mesh;
use diamond_graph::Graph;
use patch_file::{Params, StoreReader};
use run_status::{Status, status_of_export, status_of_open, status_of_script};
use script_text::{Line, Script};
use std::alloc::{AllocError, Global};
use tpz_base::Eye;
use tpz_io::{Blob, Failed, Out, Source};
use view_cut::{Front, View};

/// A replay on its way: the graph of the store's records, which of them the last view wants, how many reads of the store
/// were made, and how many parts were written.
#[derive(Drop)]
pub struct Player {
    pub graph: Graph,
    pub front: Front,
    pub reads: u64,
    pub parts: u64,
}

// A coordinate relative to the least one.
fn less(z: i64, low: i64) -> i64
    requires near { unsigned_abs z ≤ 2 ^ 40 }
    requires low { unsigned_abs low ≤ 2147483647 }
    ensures less { result ≡ z -ℤ low }
    ensures near { unsigned_abs result ≤ 2 ^ 42 }
{
    z - low
}

// The view of a line of a script, whose eye is given in scaled coordinates of the input.
fn view_of(params: &Params, x: i64, y: i64, z: i64, tol: u32) -> View
    requires params { IsRightParams params.now }
    requires x { IsTrue (is_near x) }
    requires y { IsTrue (is_near y) }
    requires z { IsTrue (is_near z) }
    ensures view { result ≡ view_at params.now.low x y z tol }
    ensures near { IsNearEye result.eye }
{
    View {
        eye: Eye {
            x: less(x, params.low[0]),
            y: less(y, params.low[1]),
            z: less(z, params.low[2]),
        },
        tol,
    }
}

// Writes the part of the cut: reads the blocks of its records, each up to so many times.
fn write_cut<S: Blob, O: Out>(
    alloc: Global,
    reader: &StoreReader,
    player: &mut Player,
    tries: u32,
    store: &mut S,
    out: &mut O,
) -> Result<(), Status>
    requires ready { IsReady (S.held store.old) reader.now player.old }
    requires few { player.old.parts ≤ 1048576 }
    ensures part { OnOk result (ForSome (S.held store.old) (λ bs. O.parts out.new ≡ followed_by (O.parts out.old)
        (text (mesh_of_cut (stored_in reader.now bs).0 (centres_at player.old.graph.records player.old.front)) (row_of reader.now.params.low) reader.now.params.digits ∷ []))) }
    ensures notes { O.notes out.new ≡ O.notes out.old }
    ensures err { OnErr result (O.parts out.new ≡ O.parts out.old) }
    ensures right { OnOk result (ForSome (S.held store.old) (λ bs. first_wrong (stored_in reader.now bs).0 player.old.front ≡ None)) }
    ensures bad { (bad : StoreBad) → result ≡ Err (Status.BadStore bad) → (i offset : ℕ) × (bad ≡ StoreBad.BadBlock i offset)
        × ForSome (S.held store.old) (λ bs. first_wrong (stored_in reader.now bs).0 player.old.front ≡ Some (i, offset)) }
    ensures spent { (i : ℕ) → result ≡ Err (Status.ReadFault (ReadAt.Record i)) → Contains player.old.front i }
    ensures status { IfErr result IsOfLines }
    ensures graph { player.new.graph ≡ player.old.graph }
    ensures front { player.new.front ≡ player.old.front }
    ensures parts { OnOk result (player.new.parts ≡ player.old.parts + 1) }
    ensures most { player.new.parts ≤ player.old.parts + 1 }
    ensures held { S.held store.new ≡ S.held store.old }
    ensures asked { HasAsked tries (length player.old.front) (is_ok result) (is_unread result) (S.faults store.old) (S.faults store.new) (S.reads store.old) (S.reads store.new) (S.outcomes store.old) (S.outcomes store.new) }
    ensures counted { OnOk result (AreCounted player.old.reads player.new.reads (S.reads store.old) (S.reads store.new)) }
    ensures no_script { (n : ℕ) → ¬ (result ≡ Err (Status.ScriptBad n)) }
    ensures no_script_fault { ¬ (result ≡ Err Status.ScriptFault) }
    ensures out_fault { result ≡ Err Status.OutFault → Rose (O.faults out.old) (O.faults out.new) }
    ensures out_later { O.faults out.old ≤ O.faults out.new }
{
    let set = player.front.list();
    let shown = match read_cut(
        alloc,
        reader,
        &player.graph,
        set,
        store,
        tries,
        &mut player.reads,
    ) {
        Ok(shown) => shown,
        Err(status) => return Err(status),
    };
    let params = reader.params();
    let views = views_of(alloc, reader.base(), params.l, &shown)?;
    if let Err(fault) = write_mesh(alloc, &views, params.low, params.digits, out) {
        return Err(status_of_export(fault));
    }
    player.parts += 1;
    Ok(())
}

// Does what a line of a script says.
fn play_line<S: Blob, O: Out>(
    alloc: Global,
    reader: &StoreReader,
    player: &mut Player,
    line: Line,
    tries: u32,
    store: &mut S,
    out: &mut O,
) -> Result<(), Status>
    requires ready { IsReady (S.held store.old) reader.now player.old }
    requires bounds { IsTrue (is_in_bounds line) }
    requires few { player.old.parts ≤ 1048576 }
    ensures ready { IsReady (S.held store.new) reader.now player.new }
    ensures step { OnOk result (ForSome (S.held store.old) (λ bs. (p : Play) → IsPlaying (stored_in reader.now bs) p player.old
        → IsPlaying (stored_in reader.now bs) (step (stored_in reader.now bs) p (Some line)) player.new)) }
    ensures wrote { OnOk result (ForSome (S.held store.old) (λ bs. (p : Play) → IsPlaying (stored_in reader.now bs) p player.old
        → Wrote (shows (stored_in reader.now bs) p line) (O.parts out.old) (O.parts out.new) (O.notes out.old) (O.notes out.new))) }
    ensures err { OnErr result (Wrote [] (O.parts out.old) (O.parts out.new) (O.notes out.old) (O.notes out.new)) }
    ensures right { OnOk result (ForSome (S.held store.old) (λ bs. (p : Play) → IsPlaying (stored_in reader.now bs) p player.old
        → first_wrong (stored_in reader.now bs).0 (asks (stored_in reader.now bs) p line) ≡ None)) }
    ensures bad { (bad : StoreBad) → result ≡ Err (Status.BadStore bad) → (i offset : ℕ) × (bad ≡ StoreBad.BadBlock i offset)
        × ForSome (S.held store.old) (λ bs. wrong_at (stored_in reader.now bs).0 i ≡ Some (i, offset))
        × ForSome (S.held store.old) (λ bs. (p : Play) → IsPlaying (stored_in reader.now bs) p player.old
        → first_wrong (stored_in reader.now bs).0 (asks (stored_in reader.now bs) p line) ≡ Some (i, offset)) }
    ensures spent { (i : ℕ) → result ≡ Err (Status.ReadFault (ReadAt.Record i)) → ForSome (S.held store.old) (λ bs. (p : Play) → IsPlaying (stored_in reader.now bs) p player.old
        → Contains (asks (stored_in reader.now bs) p line) i) }
    ensures status { IfErr result IsOfLines }
    ensures parts { player.new.parts ≤ player.old.parts + 1 }
    ensures held { S.held store.new ≡ S.held store.old }
    ensures asked { (calls : ℕ) × HasAsked tries calls (is_ok result) (is_unread result) (S.faults store.old) (S.faults store.new) (S.reads store.old) (S.reads store.new) (S.outcomes store.old) (S.outcomes store.new)
        × ForSome (S.held store.old) (λ bs. (p : Play) → IsPlaying (stored_in reader.now bs) p player.old → calls ≡ length (asks (stored_in reader.now bs) p line)) }
    ensures counted { OnOk result (AreCounted player.old.reads player.new.reads (S.reads store.old) (S.reads store.new)) }
    ensures no_script { (n : ℕ) → ¬ (result ≡ Err (Status.ScriptBad n)) }
    ensures no_script_fault { ¬ (result ≡ Err Status.ScriptFault) }
    ensures out_fault { result ≡ Err Status.OutFault → Rose (O.faults out.old) (O.faults out.new) }
    ensures out_later { O.faults out.old ≤ O.faults out.new }
{
    match line {
        Line::Look { x, y, z, tol } => {
            let view = view_of(reader.params(), x, y, z, tol);
            player.front.look(&mut player.graph, &view)?;
            Ok(())
        }
        Line::Write => write_cut(alloc, reader, player, tries, store, out),
    }
}

/// Takes the lines of a script, one after another, and does what they say.
pub fn play<C: Source, S: Blob, O: Out>(
    alloc: Global,
    reader: &StoreReader,
    player: &mut Player,
    tries: u32,
    script: &mut C,
    store: &mut S,
    out: &mut O,
) -> Result<(), Status>
    requires ready { IsReady (S.held store.old) reader.now player.old }
    requires start { player.old.front ≡ [] }
    requires parts { player.old.parts ≡ 0 }
    requires tests { player.old.graph.tests ≡ 0 }
    ensures whole { OnOk result (ForSome (C.left script.old) (λ lines. (lines_of lines).bad ≡ None)) }
    ensures played { OnOk result (ForSome (C.left script.old) (λ lines. ForSome (S.held store.old) (λ bs.
        HasPlayed (stored_in reader.now bs) (played (stored_in reader.now bs) lines) player.new (O.parts out.old) (O.parts out.new) (O.notes out.old) (O.notes out.new)))) }
    ensures bad_line { (n : ℕ) → result ≡ Err (Status.ScriptBad n) → ForSome (C.left script.old) (λ lines. ((lines_of lines).bad ≡ Some n) × ForSome (S.held store.old) (λ bs.
        HasPlayed (stored_in reader.now bs) (played (stored_in reader.now bs) lines) player.new (O.parts out.old) (O.parts out.new) (O.notes out.old) (O.notes out.new))) }
    ensures bad { (bad : StoreBad) → result ≡ Err (Status.BadStore bad) → (i offset : ℕ) × (bad ≡ StoreBad.BadBlock i offset)
        × ForSome (S.held store.old) (λ bs. wrong_at (stored_in reader.now bs).0 i ≡ Some (i, offset)) × ForSome (C.left script.old) (λ lines. ForSome (S.held store.old) (λ bs. first_wrong (stored_in reader.now bs).0 (played (stored_in reader.now bs) lines).reads ≡ Some (i, offset))) }
    ensures spent { (i : ℕ) → result ≡ Err (Status.ReadFault (ReadAt.Record i))
        → ForSome (C.left script.old) (λ lines. ForSome (S.held store.old) (λ bs. Contains (played (stored_in reader.now bs) lines).reads i)) }
    ensures status { IfErr result IsOfLines }
    ensures front { ForSome (C.left script.old) (λ lines. ForSome (S.held store.old) (λ bs.
        WrotePrefix (played (stored_in reader.now bs) lines).items (O.parts out.old) (O.parts out.new) (O.notes out.old) (O.notes out.new))) }
    ensures held { S.held store.new ≡ S.held store.old }
    ensures asked { (calls : ℕ) × HasAsked tries calls (is_ok result) (is_unread result) (S.faults store.old) (S.faults store.new) (S.reads store.old) (S.reads store.new) (S.outcomes store.old) (S.outcomes store.new)
        × ForSome (C.left script.old) (λ lines. ForSome (S.held store.old) (λ bs. calls ≤ length (played (stored_in reader.now bs) lines).reads)) }
    ensures counted { OnOk result (AreCounted player.old.reads player.new.reads (S.reads store.old) (S.reads store.new)) }
    ensures script_fault { result ≡ Err Status.ScriptFault → Rose (C.faults script.old) (C.faults script.new) }
    ensures script_later { C.faults script.old ≤ C.faults script.new }
    ensures out_fault { result ≡ Err Status.OutFault → Rose (O.faults out.old) (O.faults out.new) }
    ensures out_later { O.faults out.old ≤ O.faults out.new }
{
    let mut lines = Script::new();
    'lines: loop {
        let line = match lines.next(script) {
            Ok(Some(line)) => line,
            Ok(None) => return Ok(()),
            Err(fault) => return Err(status_of_script(fault)),
        };
        if let Err(status) = play_line(alloc, reader, player, line, tries, store, out) {
            return Err(status);
        }
    }
}

// The note: how many parts were written, how many reads of the store were made, and how many records were tested.
fn note_line(alloc: Global, parts: u64, reads: u64, tests: u64) -> Result<String, AllocError>
    ensures { IfOk result (λ line. string_bytes line ≡ replay_note parts reads tests) }
{
    format!(in alloc; "replay parts {parts} reads {reads} tests {tests}")
}

// Writes the note of a replay.
fn write_note<O: Out>(alloc: Global, player: &Player, out: &mut O) -> Result<(), Status>
    ensures ok { OnOk result (Wrote (Note (replay_note player.now.parts player.now.reads player.now.graph.tests) ∷ []) (O.parts out.old) (O.parts out.new) (O.notes out.old) (O.notes out.new)) }
    ensures err { OnErr result (Wrote [] (O.parts out.old) (O.parts out.new) (O.notes out.old) (O.notes out.new)) }
    ensures status { IfErr result (λ status. (status ≡ Status.OutFault) ⊎ (status ≡ Status.Memory)) }
    ensures out { (status : Status) → result ≡ Err status → status ≡ Status.OutFault → Rose (O.faults out.old) (O.faults out.new) }
    ensures later { O.faults out.old ≤ O.faults out.new }
{
    let line = note_line(alloc, player.parts, player.reads, player.graph.tests())?;
    match out.note(line.as_bytes()) {
        Ok(()) => Ok(()),
        Err(Failed) => Err(Status::OutFault),
    }
}

/// Opens a store, each call of it tried so often, replays a script over it, each block that is read tried so often too, and
/// writes the note.
pub fn run_replay<C: Source, S: Blob, O: Out>(
    alloc: Global,
    tries: u32,
    script: &mut C,
    store: &mut S,
    out: &mut O,
) -> Status
    requires some { 1 ≤ tries }
    requires few { tries ≤ 100 }
    ensures run { (input input' : SourceSeen) (work work' : BlobSeen) → ReplayRun tries
        (record {
          input = input;
          script = record { left = C.left script.old; faults = C.faults script.old };
          work = work;
          store = record { held = S.held store.old; reads = S.reads store.old; outcomes = S.outcomes store.old; faults = S.faults store.old };
          out = record { parts = O.parts out.old; notes = O.notes out.old; faults = O.faults out.old };
        })
        (record {
          input = input';
          script = record { left = C.left script.new; faults = C.faults script.new };
          work = work';
          store = record { held = S.held store.new; reads = S.reads store.new; outcomes = S.outcomes store.new; faults = S.faults store.new };
          out = record { parts = O.parts out.new; notes = O.notes out.new; faults = O.faults out.new };
        })
        ((script.new ≡ script.old) × (out.new ≡ out.old)) result }
    ensures status { IsOfReplay result }
    ensures script_fault { result ≡ Status.ScriptFault → Rose (C.faults script.old) (C.faults script.new) }
    ensures out_fault { result ≡ Status.OutFault → Rose (O.faults out.old) (O.faults out.new) }
    ensures script_later { C.faults script.old ≤ C.faults script.new }
    ensures store_later { S.faults store.old ≤ S.faults store.new }
    ensures out_later { O.faults out.old ≤ O.faults out.new }
{
    let (reader, graph) = match StoreReader::open(alloc, store, tries) {
        Ok(opened) => opened,
        Err(fault) => return status_of_open(fault),
    };
    let mut player = Player {
        graph,
        front: Front::new(alloc),
        reads: reader.asked(),
        parts: 0,
    };
    if let Err(status) = play(alloc, &reader, &mut player, tries, script, store, out) {
        return status;
    }
    match write_note(alloc, &player, out) {
        Ok(()) => Status::Ok,
        Err(status) => status,
    }
}
