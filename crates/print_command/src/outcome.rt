//! The outcome of `rbs print`.

ghost use Rattle.std.specs.Prelude.{◌≡◌, ◌≤◌, ◌⊎◌, [], List, length, IfOk, IfSome, IsErrOf, OnOk, false};
ghost use Rattle.run_base.specs.Causes.{Rose};
ghost use Rattle.diagnostics.specs.declared.lines.Source.{Source};
ghost use Rattle.call_outcomes.specs.Only.{IsOnly};
ghost use Rattle.call_outcomes.specs.Code.{is_fault};
ghost use Rattle.call_outcomes.specs.Gathers.{AreKept, AreSmall};
ghost use Rattle.print_command.specs.Reads.{Adds, AreRead};
ghost use Rattle.print_command.specs.Prints.{IsOfFiles};
ghost use Rattle.print_command.specs.Answer.{IsPrinted, IsOfNames};

use crate::reading::{Reading, read_file};
use call_outcomes::{
    KeptFile, Outcome, PlanRefused, Status, Stopped, gather, listed, sources_of, usage,
};
use command_words::{are_files, read_files};
use plain_data::{Many, NoMemory, Word};
use printed_signatures::print;
use run_base::Files;
use sig_model::diag::Diag;
use std::alloc::Global;

/// The number of the first file of a call: 0 and 1 are the core's.
const FIRST: u32 = 2;

/// The faults of the files that are refused, and, where there is none, the printed form of all.
#[derive(Debug, Drop)]
pub struct ReadFiles {
    pub faults: Many<Diag>,
    pub text: Many<u8>,
}

impl ReadFiles {
    /// No file. Takes no memory.
    fn new(alloc: Global) -> ReadFiles
        ensures { result ≡ record { faults = []; text = [] } }
    {
        ReadFiles {
            faults: Many::new(alloc),
            text: Many::new(alloc),
        }
    }

    /// Adds a file to those before it.
    fn add(&mut self, alloc: Global, reading: Reading) -> Result<(), NoMemory>
        ensures { OnOk result (Adds reading self.old self.new) }
    {
        match reading {
            Reading::Good(decls) => print(alloc, decls.as_slice(), &mut self.text),
            Reading::Refused(fault) => self.faults.push(fault),
        }
    }
}

/// Reads all files of a call.
fn read_all(alloc: Global, files: &[KeptFile]) -> Result<ReadFiles, NoMemory>
    requires small { AreSmall files.now }
    requires count { length files.now ≤ 4096 }
    ensures { IfOk result (λ read. (sources : List Source) → AreKept sources files.now → AreRead sources read) }
{
    let mut read = ReadFiles::new(alloc);
    for (at, file) in files.iter().enumerate() {
        let reading = read_file(alloc, FIRST + at as u32, &file.loaded)?;
        read.add(alloc, reading)?;
    }
    Ok(read)
}

/// The outcome of files that were read.
fn print_kept(alloc: Global, files: Many<KeptFile>) -> Result<Outcome, NoMemory>
    requires small { AreSmall files }
    requires count { length files ≤ 4096 }
    ensures outcome { IfOk result (λ outcome. (sources : List Source) → AreKept sources files → IsOnly (IsOfFiles sources) outcome) }
    ensures status { IfOk result (λ outcome. is_fault outcome.status ≡ false) }
{
    let read = read_all(alloc, files.as_slice())?;
    if read.faults.is_empty() {
        return Ok(Outcome {
            out: read.text,
            err: Many::new(alloc),
            status: Status::Done,
        });
    }
    let sources = sources_of(alloc, files)?;
    listed(alloc, sources.as_slice(), read.faults.as_slice())
}

/// Reads the files of these names, and prints them.
fn print_named<F: Files>(
    alloc: Global,
    names: &[Word],
    files: &mut F,
) -> Result<Outcome, PlanRefused>
    ensures told { F.told files.new ≡ F.told files.old }
    ensures later { F.faults files.old ≤ F.faults files.new }
    ensures fault { IsErrOf result PlanRefused.Fault → Rose (F.faults files.old) (F.faults files.new) }
    ensures kept { IsErrOf result PlanRefused.Fault ⊎ (F.faults files.new ≡ F.faults files.old) }
    ensures status { IfOk result (λ outcome. is_fault outcome.status ≡ false) }
    ensures outcome { IfOk result (λ outcome. IfSome (F.told files.old) (λ shelf. IsOnly (IsOfNames names.now shelf) outcome)) }
{
    let are_fit = are_files(alloc, names, ".rbs")?;
    if !are_fit {
        return Ok(usage(alloc, "files")?);
    }
    match gather(alloc, files, names) {
        Ok(kept) => Ok(print_kept(alloc, kept)?),
        Err(Stopped::Answered(outcome)) => Ok(outcome),
        Err(Stopped::Fault) => Err(PlanRefused::Fault),
        Err(Stopped::NoMemory) => Err(PlanRefused::NoMemory),
    }
}

/// What the words behind `rbs print` answer: the printed form of each file, one behind the other, or, where some are refused, the list of their
/// faults. Nothing is written.
///
/// # Errors
///
/// `Fault` where a file could not be read, and `NoMemory`.
pub fn print_files<F: Files>(
    alloc: Global,
    words: &[Word],
    files: &mut F,
) -> Result<Outcome, PlanRefused>
    ensures told { F.told files.new ≡ F.told files.old }
    ensures later { F.faults files.old ≤ F.faults files.new }
    ensures fault { IsErrOf result PlanRefused.Fault → Rose (F.faults files.old) (F.faults files.new) }
    ensures kept { IsErrOf result PlanRefused.Fault ⊎ (F.faults files.new ≡ F.faults files.old) }
    ensures status { IfOk result (λ outcome. is_fault outcome.status ≡ false) }
    ensures outcome { IfOk result (λ outcome. IfSome (F.told files.old) (λ shelf. IsOnly (IsPrinted words.now shelf) outcome)) }
{
    match read_files(alloc, words)? {
        Some(names) => print_named(alloc, names.as_slice(), files),
        None => Ok(usage(alloc, "words")?),
    }
}
