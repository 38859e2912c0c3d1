//! The files of a call, read.

ghost use Rattle.std.specs.Prelude.{◌≡◌, ◌≤◌, ◌⊎◌, IfOk, IfSome, IsErrOf, length};
ghost use Rattle.run_base.specs.Causes.{Rose};
ghost use Rattle.call_outcomes.specs.Loads.{Loads, IsSmall, text_of};

use plain_data::{Many, Word};
use run_base::{Files, ReadRefused, read_all};
use std::alloc::Global;

/// The most bytes of a file.
pub const LIMIT: u32 = 1_048_576;

/// A file that was read: its whole text, or that it has more bytes than a file may have.
#[derive(Debug, Drop)]
pub enum Loaded {
    Text(Many<u8>),
    TooLarge,
}

/// Why a file was not read.
#[derive(Clone, Copy, Debug, PartialEq, Eq)]
pub enum LoadRefused {
    Missing,
    Fault,
    NoMemory,
}

/// Reads a file to its end, or to one byte past the most that a file may have.
pub fn load<F: Files>(alloc: Global, files: &mut F, name: &Word) -> Result<Loaded, LoadRefused>
    ensures told { F.told files.new ≡ F.told files.old }
    ensures later { F.faults files.old ≤ F.faults files.new }
    ensures fault { IsErrOf result LoadRefused.Fault → Rose (F.faults files.old) (F.faults files.new) }
    ensures kept { IsErrOf result LoadRefused.Fault ⊎ (F.faults files.new ≡ F.faults files.old) }
    ensures small { IfOk result IsSmall }
    ensures answer { IfSome (F.told files.old) (λ shelf. Loads (shelf name.now) result) }
{
    match read_all(alloc, files, name.as_str(), LIMIT) {
        Ok(bytes) => Ok(Loaded::Text(bytes)),
        Err(ReadRefused::TooLarge) => Ok(Loaded::TooLarge),
        Err(ReadRefused::Missing) => Err(LoadRefused::Missing),
        Err(ReadRefused::Fault) => Err(LoadRefused::Fault),
        Err(ReadRefused::NoMemory) => Err(LoadRefused::NoMemory),
    }
}

impl Loaded {
    /// The text, which is empty where it is too large.
    pub fn into_text(self, alloc: Global) -> Many<u8>
        ensures { result ≡ text_of self }
    {
        match self {
            Loaded::Text(bytes) => bytes,
            Loaded::TooLarge => Many::new(alloc),
        }
    }
}
