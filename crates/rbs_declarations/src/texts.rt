//! Texts that the names of methods are made of.

ghost use Rattle.std.specs.Prelude.{◌≡◌, IfOk};
ghost use Rattle.rbs_declarations.specs.Machine as machine;

use plain_data::{NoMemory, Word};
use std::alloc::Global;

/// The word `self`.
pub fn text_of_self(alloc: Global) -> Result<Word, NoMemory>
    ensures { IfOk result (λ w. w ≡ machine.text_of_self) }
{
    Word::of(alloc, "self")
}

/// The operator `==`.
pub fn double_equals(alloc: Global) -> Result<Word, NoMemory>
    ensures { IfOk result (λ w. w ≡ machine.double_equals) }
{
    Word::of(alloc, "==")
}

/// The word with a `=` behind it.
pub fn with_equals(mut word: Word) -> Result<Word, NoMemory>
    ensures { IfOk result (λ w. w ≡ machine.with_equals word) }
{
    word.push_str("=")?;
    Ok(word)
}
