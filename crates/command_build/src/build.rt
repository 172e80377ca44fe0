// The command `build`.
ghost use Rattle.std.specs.Prelude.{◌≡◌, ◌≤◌, ◌<◌, ◌⊎◌, ℕ, ℤ, List, [], ◌∷◌, Ok, Err, None, Some, length, is_some, IfErr, IfOk, IfSome, IsOk, OnOk, OnErr, string_bytes};
ghost use Rattle.std.specs.Option.{ForSome};
ghost use Rattle.tpz_io.specs.Causes.{Rose, one_more};
ghost use Rattle.tpz_io.specs.Writes.{Note, Wrote};
ghost use Rattle.tpz_base.specs.Meshes.{Mesh};
ghost use Rattle.tpz_base.specs.Cubes.{Row};
ghost use Rattle.tpz_base.specs.Texts.{Face};
ghost use Rattle.ply_body.specs.Inputs.{Refusal, mesh_of};
ghost use Rattle.diamond_graph.specs.Adding.{most_centres};
ghost use Rattle.tri_stream.specs.Streams.{told_list};
ghost use Rattle.assign.specs.Splits.{split_set};
ghost use Rattle.patch_file.specs.Writing.{claimed};
ghost use Rattle.build_pass.specs.Building.{store_of, IsBuildable};
ghost use Rattle.run_status.specs.declared.status.Status.{Status};
ghost use Rattle.command_build.specs.Build.{build_note, built_of, built_text, input_store, params_of, read_text, stream_params, summary_of, IsLeft, IsLeftOver};
ghost use Rattle.mesh_stream.specs.Digits.{digits_of, input_for, IsAccepted};
ghost use Rattle.mesh_stream.specs.Splits.{finest_split};
ghost use Rattle.mesh_stream.specs.Readings.{IsSmallStream};
ghost use Rattle.command_build.specs.BuildRuns.{BuildRun};
ghost use Rattle.run_record.specs.Seen.{SourceSeen};
ghost use Rattle.run_status.specs.Statuses.{status_of, IsOfStreams, IsRefused, IsUnbuilt};

use assign::Leaves;
use build_pass::{Built, build};
use diamond_graph::Closing;
use edge_collapse::Bench;
use mesh_stream::{InputStream, read_stream};
use patch_file::{Params, StoreWriter};
use run_status::{Status, status_of_build, status_of_claim, status_of_split};
use split_pass::split;
use std::alloc::{AllocError, Global};
use tpz_io::{Blob, Failed, Out, Source};

/// How a store is built: the digits behind the point that count, if they are given, the most triangles of a tetrahedron
/// that isn't bisected, and the most of a list that is simplified.
#[derive(Clone, Copy)]
pub struct Plan {
    pub digits: Option<u8>,
    pub cap: u32,
    pub budget: u32,
}

/// What is told of a build: how many triangles of the input are whole, how many have two corners at one place, and what
/// the build tells.
#[derive(Clone, Copy)]
pub struct Summary {
    pub tris: u64,
    pub dropped: u64,
    pub built: Built,
}

// What the store of a stream says of its build.
fn params_of(read: &InputStream, cap: u32, budget: u32) -> Params
    ensures { result ≡ stream_params cap budget read.now }
{
    Params {
        l: read.l,
        digits: read.digits,
        low: read.low,
        tris: read.tris,
        dropped: read.dropped,
        cap,
        budget,
    }
}

// Splits a stream of triangles, and builds the store of it.
fn store_stream<W: Blob, S: Blob>(
    alloc: Global,
    mut read: InputStream,
    cap: u32,
    budget: u32,
    writer: StoreWriter,
    work: &mut W,
    store: &mut S,
) -> Result<Built, Status>
    requires small { IsSmallStream (W.held work.old) read }
    requires some_cap { 1 ≤ cap }
    requires most_cap { cap ≤ 16777216 }
    requires some { 1 ≤ budget }
    requires most { budget ≤ 4194304 }
    requires writer { writer ≡ claimed }
    requires empty { ForSome (S.held store.old) (λ bytes. bytes ≡ []) }
    ensures built { IfOk result (λ built. ForSome (told_list read.streams (W.held work.old) read.whole) (λ M. built ≡ built_of read.l cap budget M)) }
    ensures whole { OnOk result (ForSome (told_list read.streams (W.held work.old) read.whole) (λ M.
        ForSome (S.held store.new) (λ held. held ≡ store_of M (stream_params cap budget read)))) }
    ensures few { OnOk result (ForSome (told_list read.streams (W.held work.old) read.whole) (λ M. length (split_set read.l cap M) ≤ most_centres)) }
    ensures buildable { OnOk result (ForSome (told_list read.streams (W.held work.old) read.whole) (λ M. read.tris ≡ length M
        → (x y z : ℤ) → read.low ≡ x ∷ y ∷ z ∷ [] → IsBuildable M (stream_params cap budget read))) }
    ensures too_many { result ≡ Err Status.TooManyRecords → ForSome (told_list read.streams (W.held work.old) read.whole) (λ M.
        most_centres < length (split_set read.l cap M)) }
    ensures refused { OnErr result (ForSome (told_list read.streams (W.held work.old) read.whole) (λ M.
        IsLeft (S.held store.old) (S.held store.new) (store_of M (stream_params cap budget read)))) }
    ensures left { IsLeftOver (S.held store.old) (S.held store.new) }
    ensures before { result ≡ Err Status.TooManyRecords → S.held store.new ≡ S.held store.old }
    ensures status { IfErr result (λ status. (status ≡ Status.StoreFault) ⊎ ((status ≡ Status.TooManyRecords) ⊎ IsOfStreams status)) }
    ensures work_fault { result ≡ Err Status.WorkFault → Rose (W.faults work.old) (W.faults work.new) }
    ensures work_damage { (offset : ℕ) → result ≡ Err (Status.WorkDamage offset) → W.held work.old ≡ None }
    ensures cause { result ≡ Err Status.StoreFault → Rose (S.faults store.old) (S.faults store.new) }
    ensures reads { S.reads store.new ≡ S.reads store.old }
    ensures telling { is_some (S.held store.new) ≡ is_some (S.held store.old) }
    ensures store_later { S.faults store.old ≤ S.faults store.new }
    ensures work_later { W.faults work.old ≤ W.faults work.new }
{
    let params = params_of(&read, cap, budget);
    let closing = Closing::new(alloc, read.l);
    let leaves = Leaves::new(alloc);
    let made = match split(&mut read.streams, work, read.whole, closing, leaves, cap) {
        Ok(made) => made,
        Err(fault) => return Err(status_of_split(fault)),
    };
    let mut bench = Bench::new(alloc, budget)?;
    match build(
        &mut read.streams,
        work,
        made,
        &mut bench,
        writer,
        params,
        store,
    ) {
        Ok(built) => Ok(built),
        Err(fault) => Err(status_of_build(fault)),
    }
}

/// Claims the store, reads an input, and builds the store of it. The store is left as it was before `build` begins it.
pub fn store_input<I: Source, W: Blob, S: Blob>(
    alloc: Global,
    plan: Plan,
    input: &mut I,
    work: &mut W,
    store: &mut S,
) -> Result<Summary, Status>
    requires digits { IfSome plan.digits (λ d. d ≤ 9) }
    requires some_cap { 1 ≤ plan.cap }
    requires most_cap { plan.cap ≤ 16777216 }
    requires some { 1 ≤ plan.budget }
    requires most { plan.budget ≤ 4194304 }
    ensures summary { IfOk result (λ summary. ForSome (I.left input.old) (λ bytes. ForSome (W.held work.old) (λ _. (rows : List Row) (faces : List Face)
        → input_for plan.digits bytes ≡ Ok (record { rows = rows; faces = faces }) → summary ≡ summary_of plan.cap plan.budget rows faces))) }
    ensures whole { OnOk result (ForSome (I.left input.old) (λ bytes. ForSome (W.held work.old) (λ _. (rows : List Row) (faces : List Face)
        → input_for plan.digits bytes ≡ Ok (record { rows = rows; faces = faces })
        → ForSome (S.held store.new) (λ held. held ≡ input_store plan.cap plan.budget (digits_of plan.digits bytes) rows faces)))) }
    ensures buildable { OnOk result (ForSome (I.left input.old) (λ bytes. ForSome (W.held work.old) (λ _. (rows : List Row) (faces : List Face)
        → input_for plan.digits bytes ≡ Ok (record { rows = rows; faces = faces })
        → IsBuildable (mesh_of rows faces) (params_of plan.cap plan.budget (digits_of plan.digits bytes) rows faces)))) }
    ensures accepted { (IsOk result) ⊎ (result ≡ Err Status.TooManyRecords) → ForSome (I.left input.old) (IsAccepted plan.digits) }
    ensures few { OnOk result (ForSome (I.left input.old) (λ bytes. ForSome (W.held work.old) (λ _. (rows : List Row) (faces : List Face)
        → input_for plan.digits bytes ≡ Ok (record { rows = rows; faces = faces }) → length (finest_split (Some plan.cap) rows faces) ≤ most_centres))) }
    ensures too_many { result ≡ Err Status.TooManyRecords → ForSome (I.left input.old) (λ bytes. ForSome (W.held work.old) (λ _. (rows : List Row) (faces : List Face)
        → input_for plan.digits bytes ≡ Ok (record { rows = rows; faces = faces }) → most_centres < length (finest_split (Some plan.cap) rows faces))) }
    ensures refused { (status : Status) → result ≡ Err status → IsRefused status
        → ForSome (I.left input.old) (λ bytes. (r : Refusal) × (input_for plan.digits bytes ≡ Err r) × (status ≡ status_of r)) }
    ensures not_empty { (len : ℕ) → result ≡ Err (Status.NotEmpty len) → (0 < len) × ForSome (S.held store.old) (λ bytes. length bytes ≡ len)
        × (input.new ≡ input.old) × (work.new ≡ work.old) }
    ensures empty { ForSome (S.held store.old) (λ bytes. 0 < length bytes → (result ≡ Err (Status.NotEmpty (length bytes))) ⊎ (result ≡ Err Status.StoreFault)) }
    ensures status { IfErr result IsUnbuilt }
    ensures store_fault { result ≡ Err Status.StoreFault → Rose (S.faults store.old) (S.faults store.new) }
    ensures input_fault { result ≡ Err Status.InputFault → Rose (I.faults input.old) (I.faults input.new) }
    ensures work_fault { result ≡ Err Status.WorkFault → Rose (W.faults work.old) (W.faults work.new) }
    ensures work_damage { (offset : ℕ) → result ≡ Err (Status.WorkDamage offset) → W.held work.old ≡ None }
    ensures before { (status : Status) → result ≡ Err status → ¬ (status ≡ Status.StoreFault) → ¬ (status ≡ Status.Memory) → ¬ (status ≡ Status.WorkFault)
        → ((offset : ℕ) → ¬ (status ≡ Status.WorkDamage offset)) → S.held store.new ≡ S.held store.old }
    ensures after { OnErr result (ForSome (I.left input.old) (λ bytes. ForSome (W.held work.old) (λ _. (rows : List Row) (faces : List Face)
        → input_for plan.digits bytes ≡ Ok (record { rows = rows; faces = faces })
        → IsLeft (S.held store.old) (S.held store.new) (input_store plan.cap plan.budget (digits_of plan.digits bytes) rows faces)))) }
    ensures left { IsLeftOver (S.held store.old) (S.held store.new) }
    ensures reads { S.reads store.new ≡ one_more (S.reads store.old) }
    ensures telling { is_some (S.held store.new) ≡ is_some (S.held store.old) }
    ensures input_later { I.faults input.old ≤ I.faults input.new }
    ensures work_later { W.faults work.old ≤ W.faults work.new }
    ensures store_later { S.faults store.old ≤ S.faults store.new }
{
    let writer = match StoreWriter::claim(store) {
        Ok(writer) => writer,
        Err(fault) => return Err(status_of_claim(fault)),
    };
    let read = match read_stream(alloc, plan.digits, input, work) {
        Ok(read) => read,
        Err(status) => return Err(status),
    };
    let tris = read.tris;
    let dropped = read.dropped;
    match store_stream(alloc, read, plan.cap, plan.budget, writer, work, store) {
        Ok(built) => Ok(Summary {
            tris,
            dropped,
            built,
        }),
        Err(status) => Err(status),
    }
}

// The numbers of the mesh.
fn read_line(alloc: Global, summary: &Summary) -> Result<String, AllocError>
    ensures { IfOk result (λ text. string_bytes text ≡ read_text summary.now) }
{
    let Summary { tris, dropped, .. } = *summary;
    format!(in alloc; "build tris {tris} dropped {dropped}")
}

// The numbers of its build.
fn built_line(alloc: Global, built: Built, budget: u32) -> Result<String, AllocError>
    ensures { IfOk result (λ text. string_bytes text ≡ built_text built budget) }
{
    let Built { records, peak } = built;
    format!(in alloc; " records {records} peak {peak} budget {budget}")
}

fn note_line(alloc: Global, summary: &Summary, budget: u32) -> Result<String, AllocError>
    ensures { IfOk result (λ line. string_bytes line ≡ build_note summary.now budget) }
{
    let front = read_line(alloc, summary)?;
    let back = built_line(alloc, summary.built, budget)?;
    format!(in alloc; "{front}{back}")
}

/// Writes the note of a build.
pub fn write_note<O: Out>(
    alloc: Global,
    summary: &Summary,
    budget: u32,
    out: &mut O,
) -> Result<(), Status>
    ensures ok { OnOk result (Wrote (Note (build_note summary.now budget) ∷ []) (O.parts out.old) (O.parts out.new) (O.notes out.old) (O.notes out.new)) }
    ensures err { OnErr result (Wrote [] (O.parts out.old) (O.parts out.new) (O.notes out.old) (O.notes out.new)) }
    ensures status { IfErr result (λ status. (status ≡ Status.OutFault) ⊎ (status ≡ Status.Memory)) }
    ensures out { (status : Status) → result ≡ Err status → status ≡ Status.OutFault → Rose (O.faults out.old) (O.faults out.new) }
    ensures later { O.faults out.old ≤ O.faults out.new }
{
    let line = note_line(alloc, summary, budget)?;
    match out.note(line.as_bytes()) {
        Ok(()) => Ok(()),
        Err(Failed) => Err(Status::OutFault),
    }
}

/// Builds the store of an input, and writes the note.
pub fn run_build<I: Source, W: Blob, S: Blob, O: Out>(
    alloc: Global,
    plan: Plan,
    input: &mut I,
    work: &mut W,
    store: &mut S,
    out: &mut O,
) -> Status
    requires digits { IfSome plan.digits (λ d. d ≤ 9) }
    requires some_cap { 1 ≤ plan.cap }
    requires most_cap { plan.cap ≤ 16777216 }
    requires some { 1 ≤ plan.budget }
    requires most { plan.budget ≤ 4194304 }
    ensures run { (script script' : SourceSeen) → BuildRun plan.digits plan.cap plan.budget
        (record {
          input = record { left = I.left input.old; faults = I.faults input.old };
          script = script;
          work = record { held = W.held work.old; reads = W.reads work.old; outcomes = W.outcomes work.old; faults = W.faults work.old };
          store = record { held = S.held store.old; reads = S.reads store.old; outcomes = S.outcomes store.old; faults = S.faults store.old };
          out = record { parts = O.parts out.old; notes = O.notes out.old; faults = O.faults out.old };
        })
        (record {
          input = record { left = I.left input.new; faults = I.faults input.new };
          script = script';
          work = record { held = W.held work.new; reads = W.reads work.new; outcomes = W.outcomes work.new; faults = W.faults work.new };
          store = record { held = S.held store.new; reads = S.reads store.new; outcomes = S.outcomes store.new; faults = S.faults store.new };
          out = record { parts = O.parts out.new; notes = O.notes out.new; faults = O.faults out.new };
        })
        ((input.new ≡ input.old) × (work.new ≡ work.old) × (out.new ≡ out.old)) result }
    ensures asked { ¬ (result ≡ Status.Usage) }
    ensures no_script { ¬ (result ≡ Status.ScriptFault) }
    ensures input_fault { result ≡ Status.InputFault → Rose (I.faults input.old) (I.faults input.new) }
    ensures work_fault { result ≡ Status.WorkFault → Rose (W.faults work.old) (W.faults work.new) }
    ensures work_damage { (offset : ℕ) → result ≡ Status.WorkDamage offset → W.held work.old ≡ None }
    ensures out_fault { result ≡ Status.OutFault → Rose (O.faults out.old) (O.faults out.new) }
    ensures input_later { I.faults input.old ≤ I.faults input.new }
    ensures work_later { W.faults work.old ≤ W.faults work.new }
    ensures store_later { S.faults store.old ≤ S.faults store.new }
    ensures out_later { O.faults out.old ≤ O.faults out.new }
{
    let summary = match store_input(alloc, plan, input, work, store) {
        Ok(summary) => summary,
        Err(status) => return status,
    };
    match write_note(alloc, &summary, plan.budget, out) {
        Ok(()) => Status::Ok,
        Err(status) => status,
    }
}
