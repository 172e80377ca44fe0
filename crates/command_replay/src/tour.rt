// The command `tour`.
ghost use Rattle.std.specs.Prelude.{◌≡◌, ◌≤◌, None, ℕ, IfSome};
ghost use Rattle.tpz_io.specs.Causes.{Rose};
ghost use Rattle.run_status.specs.declared.status.Status.{Status};
ghost use Rattle.command_replay.specs.ReplayRuns.{TourRun};

use crate::replay::run_replay;
use command_build::{Plan, run_build};
use run_status::Status;
use std::alloc::Global;
use tpz_io::{Blob, Out, Source};

/// Builds the store of an input, and writes the note of that; then replays a script over the store, and writes the note of
/// this. A build that isn't Ok ends it.
pub fn run_tour<I: Source, C: Source, W: Blob, S: Blob, O: Out>(
    alloc: Global,
    plan: Plan,
    tries: u32,
    input: &mut I,
    script: &mut C,
    work: &mut W,
    store: &mut S,
    out: &mut O,
) -> Status
    requires digits { IfSome plan.digits (λ d. d ≤ 9) }
    requires some_cap { 1 ≤ plan.cap }
    requires most_cap { plan.cap ≤ 16777216 }
    requires some_budget { 1 ≤ plan.budget }
    requires most_budget { plan.budget ≤ 4194304 }
    requires some { 1 ≤ tries }
    requires few { tries ≤ 100 }
    ensures run { TourRun plan.digits plan.cap plan.budget tries
        (record {
          input = record { left = I.left input.old; faults = I.faults input.old };
          script = record { left = C.left script.old; faults = C.faults script.old };
          work = record { held = W.held work.old; reads = W.reads work.old; outcomes = W.outcomes work.old; faults = W.faults work.old };
          store = record { held = S.held store.old; reads = S.reads store.old; outcomes = S.outcomes store.old; faults = S.faults store.old };
          out = record { parts = O.parts out.old; notes = O.notes out.old; faults = O.faults out.old };
        })
        (record {
          input = record { left = I.left input.new; faults = I.faults input.new };
          script = record { left = C.left script.new; faults = C.faults script.new };
          work = record { held = W.held work.new; reads = W.reads work.new; outcomes = W.outcomes work.new; faults = W.faults work.new };
          store = record { held = S.held store.new; reads = S.reads store.new; outcomes = S.outcomes store.new; faults = S.faults store.new };
          out = record { parts = O.parts out.new; notes = O.notes out.new; faults = O.faults out.new };
        })
        (record { input = input.new ≡ input.old; script = script.new ≡ script.old; work = work.new ≡ work.old; store = store.new ≡ store.old; out = out.new ≡ out.old }) result }
    ensures asked { ¬ (result ≡ Status.Usage) }
    ensures input_fault { result ≡ Status.InputFault → Rose (I.faults input.old) (I.faults input.new) }
    ensures script_fault { result ≡ Status.ScriptFault → Rose (C.faults script.old) (C.faults script.new) }
    ensures work_fault { result ≡ Status.WorkFault → Rose (W.faults work.old) (W.faults work.new) }
    ensures work_damage { (offset : ℕ) → result ≡ Status.WorkDamage offset → W.held work.old ≡ None }
    ensures out_fault { result ≡ Status.OutFault → Rose (O.faults out.old) (O.faults out.new) }
    ensures input_later { I.faults input.old ≤ I.faults input.new }
    ensures script_later { C.faults script.old ≤ C.faults script.new }
    ensures work_later { W.faults work.old ≤ W.faults work.new }
    ensures store_later { S.faults store.old ≤ S.faults store.new }
    ensures out_later { O.faults out.old ≤ O.faults out.new }
{
    match run_build(alloc, plan, input, work, store, out) {
        Status::Ok => run_replay(alloc, tries, script, store, out),
        status => status,
    }
}
