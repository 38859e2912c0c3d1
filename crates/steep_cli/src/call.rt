//! The top call.

ghost use Rattle.std.specs.Prelude.{◌≡◌, ◌≢◌, ◌≤◌, ◌<◌, ◌^◌, ◌-◌, ◌⊎◌, ◌↔◌, Ok, IfOk, IfSome, length};
ghost use Rattle.run_base.specs.Causes.{Rose};
ghost use Rattle.call_outcomes.specs.declared.outcome.Outcome.{Outcome};
ghost use Rattle.steep_cli.specs.Ran.{IsMeant, Wrote, Ran};

use crate::Status;
use crate::plan::plan_of;
use call_outcomes::{Outcome, PlanRefused, read_fault};
use plain_data::{Many, NoMemory, Word};
use run_base::{Files, Gate, Sink, write_all};
use std::alloc::Global;
use std::thread::Threads;

/// Writes both texts, and gives the status.
fn write_outcome<O: Sink, E: Sink>(outcome: &Outcome, out: &mut O, err: &mut E) -> Status
    requires { outcome.now.status ≢ Status.WriteFault }
    ensures wrote { Wrote outcome.now result (O.written out.old) (O.written out.new) (E.written err.old) (E.written err.new) }
    ensures out_later { O.faults out.old ≤ O.faults out.new }
    ensures err_later { E.faults err.old ≤ E.faults err.new }
    ensures cause { result ≡ Status.WriteFault → Rose (O.faults out.old) (O.faults out.new) ⊎ Rose (E.faults err.old) (E.faults err.new) }
    ensures kept { (result ≡ Status.WriteFault) ⊎ ((O.faults out.new ≡ O.faults out.old) × (E.faults err.new ≡ E.faults err.old)) }
    ensures sure { length outcome.now.out < O.assured out.old → length outcome.now.err < E.assured err.old → result ≢ Status.WriteFault }
{
    if write_all(out, outcome.out.as_slice()).is_err() {
        return Status::WriteFault;
    }
    if write_all(err, outcome.err.as_slice()).is_err() {
        return Status::WriteFault;
    }
    outcome.status
}

/// What the call means to write.
fn outcome_of<F: Files>(
    alloc: Global,
    words: &Many<Word>,
    files: &mut F,
) -> Result<Outcome, NoMemory>
    ensures later { F.faults files.old ≤ F.faults files.new }
    ensures written { IfOk result (λ outcome. outcome.status ≢ Status.WriteFault) }
    ensures fault { IfOk result (λ outcome. outcome.status ≡ Status.ReadFault → Rose (F.faults files.old) (F.faults files.new)) }
    ensures outcome { F.faults files.new < 2 ^ 64 - 1 → IfOk result (IsMeant (F.told files.old) words.now (F.faults files.old) (F.faults files.new)) }
{
    match plan_of(alloc, words, files) {
        Ok(outcome) => Ok(outcome),
        Err(PlanRefused::Fault) => read_fault(alloc),
        Err(PlanRefused::NoMemory) => Err(NoMemory),
    }
}

/// Does what a command line says, over files and sinks that are handed in.
///
/// `words` is the command line without the program's own path. The files are read in order before anything
/// is written. A failed read is answered by `ReadFault` and a failed write by `WriteFault`, whatever the status
/// would have been; where memory runs out, nothing was written.
pub fn tool<R: Threads + Sync, F: Files, O: Sink, E: Sink, G: Gate>(
    rt: &R,
    alloc: Global,
    words: &Many<Word>,
    files: &mut F,
    out: &mut O,
    err: &mut E,
    gate: &G,
) -> Result<Status, NoMemory>
    // Each text whole and its status, or a front of each where a write failed, or nothing where there was no memory.
    ensures texts { F.faults files.new < 2 ^ 64 - 1
        → Ran (IsMeant (F.told files.old) words.now (F.faults files.old) (F.faults files.new)) result (O.written out.old) (O.written out.new) (E.written err.old) (E.written err.new) }

    // A fault is answered only where a count rose, and is never passed over.
    ensures files_later { F.faults files.old ≤ F.faults files.new }
    ensures out_later { O.faults out.old ≤ O.faults out.new }
    ensures err_later { E.faults err.old ≤ E.faults err.new }
    ensures read_fault { result ≡ Ok Status.ReadFault → Rose (F.faults files.old) (F.faults files.new) }
    ensures write_fault { result ≡ Ok Status.WriteFault → Rose (O.faults out.old) (O.faults out.new) ⊎ Rose (E.faults err.old) (E.faults err.new) }
    ensures told_write_fault { IfOk result (λ status. (status ≡ Status.WriteFault) ⊎ ((O.faults out.new ≡ O.faults out.old) × (E.faults err.new ≡ E.faults err.old))) }

    // Within what the sinks promise to take, no write fails.
    ensures sure { F.faults files.new < 2 ^ 64 - 1
        → ((outcome : Outcome) → IsMeant (F.told files.old) words.now (F.faults files.old) (F.faults files.new) outcome
        → (length outcome.out < O.assured out.old) × (length outcome.err < E.assured err.old))
        → IfOk result (λ status. status ≢ Status.WriteFault) }
{
    let _ = rt;
    let _ = gate;
    let outcome = outcome_of(alloc, words, files)?;
    Ok(write_outcome(&outcome, out, err))
}
