//! The terminals of a text.

ghost use Rattle.std.specs.Prelude.{◌<◌, ◌^◌, length, IfOk};
ghost use Rattle.std.specs.List.{AllByRecursion};
ghost use Rattle.rbs_terminals.specs.Kinds.{IsOfToken};
ghost use Rattle.rbs_terminals.specs.Terminals.{Answers};

use crate::terminals::Terminals;
use crate::token::Token;
use plain_data::Many;
use rbs_lexer::{LexRefused, tokens};
use std::alloc::Global;

/// All terminals of a signature file, in order. It is refused where its tokens are.
pub fn all_terminals(alloc: Global, file: u32, bytes: &[u8]) -> Result<Many<Token>, LexRefused>
    requires { length bytes.now < 2 ^ 32 }
    ensures answer { Answers file bytes.now result }
    ensures of_tokens { IfOk result (AllByRecursion (λ terminal. IsOfToken terminal.kind)) }
{
    let tokens = tokens(alloc, file, bytes)?;
    let mut rest = Terminals::new(alloc, bytes, tokens.as_slice());
    let mut all = Many::new(alloc);
    while let Some(terminal) = rest.next()? {
        all.push(terminal)?;
    }
    Ok(all)
}
