//! Tokens and texts with one more at the end.

ghost use Rattle.std.specs.Prelude.{◌≡◌, ◌++◌, encode_utf8, IfOk};
ghost use Rattle.ruby_tokens.specs.Machine.{with_token};

use crate::token::{Kind, Token};
use plain_data::{Many, NoMemory, Word};
use std::alloc::Global;

/// The tokens and one more.
pub fn with_token(
    tokens: Many<Token>,
    kind: Kind,
    start: u32,
    end: u32,
) -> Result<Many<Token>, NoMemory>
    ensures { IfOk result (λ more. more ≡ with_token tokens kind start end) }
{
    let mut tokens = tokens;
    tokens.push(Token { kind, start, end })?;
    Ok(tokens)
}

/// The text and one more character.
pub fn with_character(text: Word, c: char) -> Result<Word, NoMemory>
    ensures { IfOk result (λ more. more ≡ text ++ encode_utf8 c) }
{
    let mut text = text;
    text.push(c)?;
    Ok(text)
}

/// The text of one character.
pub fn letter(alloc: Global, c: char) -> Result<Word, NoMemory>
    ensures { IfOk result (λ text. text ≡ encode_utf8 c) }
{
    with_character(Word::new(alloc), c)
}
