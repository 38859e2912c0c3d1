//! The tokens of a text.

ghost use Rattle.std.specs.Prelude.{◌≡◌, ◌+◌, ◌^◌, ◌<◌, List, length, IfOk};
ghost use Rattle.source_text.specs.Characters.{width};
ghost use Rattle.ruby_tokens.specs.Reads.{reads, first};
ghost use Rattle.ruby_tokens.specs.Does.{Ends};
ghost use Rattle.ruby_tokens.specs.declared.token.Token.{Token};
ghost use Rattle.ruby_tokens.specs.Tokens.{IsDivided};
ghost use Rattle.ruby_tokens.specs.Answers.{Answers};

use crate::before::at_start;
use crate::lexer::{ends, step};
use crate::mode::{Lexer, Mode};
use crate::refused::Refused;
use crate::token::Token;
use plain_data::{Many, NoMemory};
use source_text::characters;
use std::alloc::Global;

/// The tokens of the characters, which begin at the byte 0.
fn tokens_of(alloc: Global, characters: &[char]) -> Result<Many<Token>, Refused>
    requires { width characters.now < 2 ^ 32 }
    ensures { Ends (reads first 0 characters.now) result }
{
    let mut lexer = Lexer {
        tokens: Many::new(alloc),
        mode: Mode::Between(at_start()),
    };
    let mut at: u32 = 0;
    for c in characters {
        lexer = step(alloc, lexer, at, *c)?;
        at += c.len_utf8() as u32;
    }
    ends(alloc, lexer, at)
}

/// The tokens of a Ruby text, or `None` where it has none: the bytes are no UTF-8, or hold what begins
/// no token of the profile. No text divides into tokens in two ways.
#[tactic(auto, using(crate::proofs::Exact::divided_once))]
pub fn tokens(alloc: Global, bytes: &[u8]) -> Result<Option<Many<Token>>, NoMemory>
    requires { length bytes.now < 2 ^ 32 }
    ensures answer { IfOk result (λ found. Answers bytes.now found) }
    ensures once { (ts us : List Token) → IsDivided ts bytes.now → IsDivided us bytes.now → ts ≡ us }
{
    let Some(characters) = characters(alloc, bytes)? else {
        return Ok(None);
    };
    match tokens_of(alloc, characters.as_slice()) {
        Ok(tokens) => Ok(Some(tokens)),
        Err(Refused::NoToken) => Ok(None),
        Err(Refused::NoMemory) => Err(NoMemory),
    }
}
