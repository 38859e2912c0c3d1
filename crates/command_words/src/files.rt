//! Which files a command takes.

ghost use Rattle.std.specs.Prelude.{◌≡◌, IfOk, nat_eq};
ghost use Rattle.std.specs.List.{ends_with, list_all};
ghost use Rattle.command_words.specs.Files as spec;

use names::names_of;
use plain_data::{NoMemory, Word};
use std::alloc::Global;

/// How many files a command takes at most.
pub const MOST_FILES: usize = 4_096;

/// Whether each file ends so, no two are equal, and there are at most `MOST_FILES`.
pub fn are_files(alloc: Global, files: &[Word], ending: &str) -> Result<bool, NoMemory>
    ensures { IfOk result (λ yes. yes ≡ spec.are_files ending.now files.now) }
{
    if files.len() > MOST_FILES {
        return Ok(false);
    }
    if !have_ending(files, ending) {
        return Ok(false);
    }
    Ok(names_of(alloc, files)?.is_some())
}

fn have_ending(files: &[Word], ending: &str) -> bool
    ensures { result ≡ list_all (λ file. ends_with nat_eq file ending.now) files.now }
{
    for file in files {
        if !file.as_bytes().ends_with(ending.as_bytes()) {
            return false;
        }
    }
    true
}
