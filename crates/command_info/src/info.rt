// The command `info`.
ghost use Rattle.std.specs.Prelude.{◌≡◌, ◌≤◌, ◌⊎◌, ◌++◌, ◌∷◌, [], Bool, false, List, Ok, Err, IfOk, IfErr, OnOk, OnErr, length, replicate, string_bytes};
ghost use Rattle.std.specs.Option.{ForSome};
ghost use Rattle.tpz_io.specs.Causes.{Rose};
ghost use Rattle.tpz_io.specs.Writes.{Note, Wrote, WrotePrefix};
ghost use Rattle.patch_file.specs.declared.shape.Params.{Params as StoreParams};
ghost use Rattle.patch_file.specs.declared.shape.StoreBad.{StoreBad};
ghost use Rattle.patch_file.specs.Asking.{RoseBy};
ghost use Rattle.patch_file.specs.Stores.{read};
ghost use Rattle.patch_file.specs.Tables.{Table};
ghost use Rattle.run_status.specs.declared.status.ReadAt.{ReadAt};
ghost use Rattle.run_status.specs.declared.status.Status.{Status};
ghost use Rattle.command_info.specs.Info.{info_items, info_note, input_text, store_text};

use patch_file::{Params, StoreReader};
use run_status::{Status, status_of_open};
use std::alloc::{AllocError, Global};
use tpz_io::{Blob, Failed, Out};

// What the header says of the input.
fn input_line(alloc: Global, params: &Params) -> Result<String, AllocError>
    ensures { IfOk result (λ text. string_bytes text ≡ input_text params.now) }
{
    let Params {
        l,
        digits,
        tris,
        dropped,
        ..
    } = *params;
    format!(in alloc; "info level {l} digits {digits} tris {tris} dropped {dropped}")
}

// What it says of the build and of the store.
fn store_line(
    alloc: Global,
    params: &Params,
    records: u32,
    bytes: u64,
) -> Result<String, AllocError>
    ensures { IfOk result (λ text. string_bytes text ≡ store_text params.now records bytes) }
{
    let Params { cap, budget, .. } = *params;
    format!(in alloc; " cap {cap} budget {budget} records {records} bytes {bytes}")
}

// The note: what the header says, the number of records, and the length of the whole.
fn note_line(alloc: Global, params: &Params, records: u32, bytes: u64) -> Result<String, AllocError>
    ensures { IfOk result (λ line. string_bytes line ≡ info_note params.now records bytes) }
{
    let front = input_line(alloc, params)?;
    let back = store_line(alloc, params, records, bytes)?;
    format!(in alloc; "{front}{back}")
}

// Writes the note of a store that was opened.
fn write_note<O: Out>(alloc: Global, reader: &StoreReader, out: &mut O) -> Result<(), Status>
    ensures ok { OnOk result (Wrote (Note (info_note reader.now.params (length reader.now.places) reader.now.bytes) ∷ []) (O.parts out.old) (O.parts out.new) (O.notes out.old) (O.notes out.new)) }
    ensures err { OnErr result (Wrote [] (O.parts out.old) (O.parts out.new) (O.notes out.old) (O.notes out.new)) }
    ensures status { IfErr result (λ status. (status ≡ Status.OutFault) ⊎ (status ≡ Status.Memory)) }
    ensures out { (status : Status) → result ≡ Err status → status ≡ Status.OutFault → Rose (O.faults out.old) (O.faults out.new) }
    ensures later { O.faults out.old ≤ O.faults out.new }
{
    let line = note_line(alloc, reader.params(), reader.records(), reader.bytes())?;
    match out.note(line.as_bytes()) {
        Ok(()) => Ok(()),
        Err(Failed) => Err(Status::OutFault),
    }
}

/// Opens the store, each call of it tried so often, and writes what its header says.
pub fn run_info<S: Blob, O: Out>(alloc: Global, tries: u32, store: &mut S, out: &mut O) -> Status
    requires some { 1 ≤ tries }
    requires few { tries ≤ 100 }
    ensures status { (result ≡ Status.Ok) ⊎ ((result ≡ Status.OutFault) ⊎ ((result ≡ Status.Memory) ⊎ ((result ≡ Status.ReadFault ReadAt.Head) ⊎ ((bad : StoreBad) × (result ≡ Status.BadStore bad))))) }
    ensures ok { result ≡ Status.Ok → ForSome (S.held store.old) (λ bytes. (table : Table × StoreParams) × (read bytes ≡ Ok table)
        × Wrote (info_items table bytes) (O.parts out.old) (O.parts out.new) (O.notes out.old) (O.notes out.new)) }
    ensures accepted { result ≡ Status.OutFault → ForSome (S.held store.old) (λ bytes. (table : Table × StoreParams) × (read bytes ≡ Ok table)) }
    ensures refused { (bad : StoreBad) → result ≡ Status.BadStore bad → ForSome (S.held store.old) (λ bytes. read bytes ≡ Err bad) }
    ensures fault { result ≡ Status.ReadFault ReadAt.Head → RoseBy tries (S.faults store.old) (S.faults store.new) }
    ensures spent { result ≡ Status.ReadFault ReadAt.Head → ForSome (S.outcomes store.new) (λ all. (front : List Bool) × (all ≡ front ++ replicate tries false)) }
    ensures out_fault { result ≡ Status.OutFault → Rose (O.faults out.old) (O.faults out.new) }
    ensures written { ¬ (result ≡ Status.Ok) → Wrote [] (O.parts out.old) (O.parts out.new) (O.notes out.old) (O.notes out.new) }
    ensures held { S.held store.new ≡ S.held store.old }
    ensures later { S.faults store.old ≤ S.faults store.new }
    ensures out_later { O.faults out.old ≤ O.faults out.new }
{
    let reader = match StoreReader::open(alloc, store, tries) {
        Ok((reader, _graph)) => reader,
        Err(fault) => return status_of_open(fault),
    };
    match write_note(alloc, &reader, out) {
        Ok(()) => Status::Ok,
        Err(status) => status,
    }
}
