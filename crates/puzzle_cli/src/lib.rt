//! The commands of `tpz`, from the words of the command line and the bytes of its devices to a status.
#![tactic(auto)]

ghost use Rattle.std.specs.Prelude.{◌≡◌, ◌≤◌, ◌⊎◌, ℕ, false, None, Some, map, string_bytes};
ghost use Rattle.tpz_io.specs.Causes.{Rose};
ghost use Rattle.command_words.specs.declared.jobs.Job.{Job};
ghost use Rattle.command_words.specs.Words.{asked};
ghost use Rattle.puzzle_cli.specs.Touches.{touched_by};
ghost use Rattle.puzzle_cli.specs.Shows.{shows};

use command_build::{Plan, run_build};
use command_finest::run_finest;
use command_gen::run_gen;
use command_info::run_info;
use command_replay::{run_replay, run_tour};
pub use command_words::{Job, WordsFault, read_words};
pub use run_status::{InputKind, Place, ReadAt, Status};
use std::alloc::Global;
pub use text_law::text_law;
use tpz_io::{Blob, Out, Source};

/// Runs the command that the words ask for. It always returns.
///
/// `finest` reads a PLY mesh from `input`, and writes its triangles leaf by leaf as one part of `out`, in the input's
/// scaled coordinates, and then its note. It keeps the points in `work`, whose bytes it overwrites, and with a cap the triangles behind them. `build` reads a mesh as `finest` does, and writes the store of it into `store`, which must be
/// empty, and then its note. `gen` writes a mesh of
/// a formula as one part of `out`, and then its note. `info` reads the head of `store`, and writes what it says as a note. `replay` takes the
/// lines of `script` over the store in `store`, writes a part of `out` for each that says so, and then its note. `tour` does what `build` does, and then what `replay` does. A device that the command doesn't touch is left as it was. No call
/// changes whether a device tells its bytes.
pub fn run<I: Source, C: Source, W: Blob, S: Blob, O: Out>(
    alloc: Global,
    words: &[String],
    input: &mut I,
    script: &mut C,
    work: &mut W,
    store: &mut S,
    out: &mut O,
) -> Status
    // Usage comes exactly where the words aren't those of a command.
    ensures usage { result ≡ Status.Usage → asked (map string_bytes words.now) ≡ None }
    ensures asked { asked (map string_bytes words.now) ≡ None → (result ≡ Status.Usage) ⊎ (result ≡ Status.Memory) }

    // A device that the command doesn't touch gets no call.
    ensures same_input { (touched_by (asked (map string_bytes words.now))).input ≡ false → input.new ≡ input.old }
    ensures same_script { (touched_by (asked (map string_bytes words.now))).script ≡ false → script.new ≡ script.old }
    ensures same_work { (touched_by (asked (map string_bytes words.now))).work ≡ false → work.new ≡ work.old }
    ensures same_store { (touched_by (asked (map string_bytes words.now))).store ≡ false → store.new ≡ store.old }
    ensures same_out { (touched_by (asked (map string_bytes words.now))).out ≡ false → out.new ≡ out.old }

    // Each command does what it says: of the job that the words ask for, the run shows what it must.
    ensures shown { (job : Job) → asked (map string_bytes words.now) ≡ Some job → shows job
        (record {
          input = record { left = I.left input.old; faults = I.faults input.old };
          script = record { left = C.left script.old; faults = C.faults script.old };
          work = record { held = W.held work.old; reads = W.reads work.old; outcomes = W.outcomes work.old; faults = W.faults work.old };
          store = record { held = S.held store.old; reads = S.reads store.old; outcomes = S.outcomes store.old; faults = S.faults store.old };
          out = record { parts = O.parts out.old; notes = O.notes out.old; faults = O.faults out.old };
        })
        (record {
          input = record { left = I.left input.new; faults = I.faults input.new };
          script = record { left = C.left script.new; faults = C.faults script.new };
          work = record { held = W.held work.new; reads = W.reads work.new; outcomes = W.outcomes work.new; faults = W.faults work.new };
          store = record { held = S.held store.new; reads = S.reads store.new; outcomes = S.outcomes store.new; faults = S.faults store.new };
          out = record { parts = O.parts out.new; notes = O.notes out.new; faults = O.faults out.new };
        })
        (record { input = input.new ≡ input.old; script = script.new ≡ script.old; work = work.new ≡ work.old; store = store.new ≡ store.old; out = out.new ≡ out.old }) result }

    // A device is blamed only where it failed in this call, and a damaged work file is told only of one that tells nothing.
    ensures input_fault { result ≡ Status.InputFault → Rose (I.faults input.old) (I.faults input.new) }
    ensures script_fault { result ≡ Status.ScriptFault → Rose (C.faults script.old) (C.faults script.new) }
    ensures work_fault { result ≡ Status.WorkFault → Rose (W.faults work.old) (W.faults work.new) }
    ensures work_damage { (offset : ℕ) → result ≡ Status.WorkDamage offset → W.held work.old ≡ None }
    ensures out_fault { result ≡ Status.OutFault → Rose (O.faults out.old) (O.faults out.new) }
    ensures later { (I.faults input.old ≤ I.faults input.new) × (C.faults script.old ≤ C.faults script.new) × (W.faults work.old ≤ W.faults work.new) × (S.faults store.old ≤ S.faults store.new) × (O.faults out.old ≤ O.faults out.new) }
{
    let job = match read_words(alloc, words) {
        Ok(job) => job,
        Err(WordsFault::Usage) => return Status::Usage,
        Err(WordsFault::Memory) => return Status::Memory,
    };
    match job {
        Job::Finest { digits, cap } => run_finest(alloc, digits, cap, input, work, out),
        Job::Build {
            digits,
            cap,
            budget,
        } => run_build(
            alloc,
            Plan {
                digits,
                cap,
                budget,
            },
            input,
            work,
            store,
            out,
        ),
        Job::Gen { size } => run_gen(alloc, size, out),
        Job::Info { tries } => run_info(alloc, tries, store, out),
        Job::Replay { tries } => run_replay(alloc, tries, script, store, out),
        Job::Tour {
            digits,
            cap,
            budget,
            tries,
        } => run_tour(
            alloc,
            Plan {
                digits,
                cap,
                budget,
            },
            tries,
            input,
            script,
            work,
            store,
            out,
        ),
    }
}
