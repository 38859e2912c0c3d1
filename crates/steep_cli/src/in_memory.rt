//! The top call over memory: where nothing fails, the answer is written.

ghost use Rattle.std.specs.Prelude.{◌≡◌, ◌≢◌, ◌<◌, ◌++◌, Ok, IfOk, length};
ghost use Rattle.run_base.specs.MemFiles.{shelf_of};
ghost use Rattle.run_base.specs.MemSinks.{assured};
ghost use Rattle.call_outcomes.specs.declared.outcome.Outcome.{Outcome};
ghost use Rattle.call_outcomes.specs.Only.{IsOnly};
ghost use Rattle.steep_cli.specs.Answer.{IsAnswer};

use crate::{Status, tool};
use plain_data::{Many, NoMemory, Word};
use run_base::{CalmFiles, Gate, MemSink};
use std::alloc::Global;
use std::thread::Threads;

/// The top call over files that never fail and sinks with room for the answer: no fault is answered, and the
/// texts and the status are those of the one answer.
pub fn tool_in_memory<R: Threads + Sync, G: Gate>(
    rt: &R,
    alloc: Global,
    words: &Many<Word>,
    files: &mut CalmFiles,
    out: &mut MemSink,
    err: &mut MemSink,
    gate: &G,
) -> Result<Status, NoMemory>
    requires room { (outcome : Outcome) → IsAnswer words.now (shelf_of files.old.files) outcome → (length outcome.out < assured out.old) × (length outcome.err < assured err.old) }
    ensures no_read_fault { result ≢ Ok Status.ReadFault }
    ensures no_write_fault { IfOk result (λ status. status ≢ Status.WriteFault) }
    ensures answer { IfOk result (λ status. (outcome : Outcome) × IsOnly (IsAnswer words.now (shelf_of files.old.files)) outcome
        × (status ≡ outcome.status) × (out.new.bytes ≡ out.old.bytes ++ outcome.out) × (err.new.bytes ≡ err.old.bytes ++ outcome.err)) }
{
    tool(rt, alloc, words, files, out, err, gate)
}
