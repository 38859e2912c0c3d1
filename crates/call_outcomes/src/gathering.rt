//! The files of a call, read in their order.

ghost use Rattle.std.specs.Prelude.{◌≡◌, ◌≤◌, ◌⊎◌, ◌++◌, ◌∷◌, [], ℕ, List, IfOk, IfErr, IfSome, IsErrOf, OnOk, length, map};
ghost use Rattle.run_base.specs.Causes.{Rose};
ghost use Rattle.call_outcomes.specs.Loads.{IsLoaded, IsSmall};
ghost use Rattle.call_outcomes.specs.Contents.{contents, counted};
ghost use Rattle.call_outcomes.specs.Gathers.{AreSmall, Gathers, IsCalm, LoadsNamed, shown};

use crate::loading::{LIMIT, LoadRefused, Loaded, load};
use crate::outcome::{Outcome, missing, usage};
use diagnostics::Source;
use plain_data::{Many, NoMemory, Word};
use run_base::Files;
use std::alloc::Global;

/// The most bytes of all files of a call. One that is too large counts as the most that a file may have.
pub const MOST_BYTES: u32 = 16_777_216;

/// A file that was read: its name, and what is kept of it.
#[derive(Debug, Drop)]
pub struct KeptFile {
    pub name: Word,
    pub loaded: Loaded,
}

impl KeptFile {
    /// The file as a list shows it, with no text where it is too large.
    pub fn into_source(self, alloc: Global) -> Source
        ensures { result ≡ shown self }
    {
        let KeptFile { name, loaded } = self;
        Source {
            name,
            text: loaded.into_text(alloc),
        }
    }
}

/// Why the files of a call were not all read.
#[derive(Debug, Drop)]
pub enum Stopped {
    /// One of them decides what the call answers.
    Answered(Outcome),
    Fault,
    NoMemory,
}

impl From<NoMemory> for Stopped {
    ghost use Rattle.std.specs.Prelude.{◌≡◌};
    ghost use Rattle.call_outcomes.specs.declared.gathering.Stopped.TheVariants as stopped;

    ghost from_gives = { λ _ e. e ≡ stopped.NoMemory };

    fn from(_: NoMemory) -> Self {
        Stopped::NoMemory
    }
}

/// How many bytes a file counts.
fn size_of(loaded: &Loaded) -> u32
    requires { IsSmall loaded.now }
    ensures size { (bytes : List ℕ) → IsLoaded bytes loaded.now → result ≡ counted bytes }
    ensures within { result ≤ 1048576 }
{
    match loaded {
        Loaded::Text(text) => text.len() as u32,
        Loaded::TooLarge => LIMIT,
    }
}

/// Reads a file to its end, or to one byte past the most that a file may have.
fn load_file<F: Files>(alloc: Global, files: &mut F, name: &Word) -> Result<Loaded, Stopped>
    ensures told { F.told files.new ≡ F.told files.old }
    ensures later { F.faults files.old ≤ F.faults files.new }
    ensures fault { IsErrOf result Stopped.Fault → Rose (F.faults files.old) (F.faults files.new) }
    ensures kept { IsErrOf result Stopped.Fault ⊎ (F.faults files.new ≡ F.faults files.old) }
    ensures small { IfOk result IsSmall }
    ensures calm { IfErr result IsCalm }
    ensures answer { IfSome (F.told files.old) (λ shelf. LoadsNamed name.now (shelf name.now) result) }
{
    match load(alloc, files, name) {
        Ok(loaded) => Ok(loaded),
        Err(LoadRefused::Missing) => Err(Stopped::Answered(missing(alloc, name)?)),
        Err(LoadRefused::Fault) => Err(Stopped::Fault),
        Err(LoadRefused::NoMemory) => Err(Stopped::NoMemory),
    }
}

/// Adds a file to those before it.
fn keep(kept: &mut Many<KeptFile>, name: &Word, loaded: Loaded) -> Result<(), NoMemory>
    ensures { OnOk result (kept.new ≡ kept.old ++ record { name = name.now; loaded = loaded } ∷ []) }
{
    kept.push(KeptFile {
        name: name.clone()?,
        loaded,
    })
}

/// The files of these names, read in their order.
///
/// Reading stops at the first file that isn't there, that makes the bytes of all files too many, or that can't be read.
pub fn gather<F: Files>(
    alloc: Global,
    files: &mut F,
    names: &[Word],
) -> Result<Many<KeptFile>, Stopped>
    ensures told { F.told files.new ≡ F.told files.old }
    ensures later { F.faults files.old ≤ F.faults files.new }
    ensures fault { IsErrOf result Stopped.Fault → Rose (F.faults files.old) (F.faults files.new) }
    ensures kept { IsErrOf result Stopped.Fault ⊎ (F.faults files.new ≡ F.faults files.old) }
    ensures small { IfOk result AreSmall }
    ensures count { IfOk result (λ kept. length kept ≡ length names.now) }
    ensures calm { IfErr result IsCalm }
    ensures answer { IfSome (F.told files.old) (λ shelf. Gathers (contents shelf names.now 0) result) }
{
    let mut kept = Many::new(alloc);
    let mut total = 0;
    for name in names {
        let loaded = load_file(alloc, files, name)?;
        total += size_of(&loaded);
        if total > MOST_BYTES {
            return Err(Stopped::Answered(usage(alloc, "files")?));
        }
        keep(&mut kept, name, loaded)?;
    }
    Ok(kept)
}

/// The files of a call as a list shows them.
pub fn sources_of(alloc: Global, files: Many<KeptFile>) -> Result<Many<Source>, NoMemory>
    ensures { IfOk result (λ sources. sources ≡ map shown files) }
{
    let mut sources = Many::new(alloc);
    for file in files.into_vec() {
        sources.push(file.into_source(alloc))?;
    }
    Ok(sources)
}
