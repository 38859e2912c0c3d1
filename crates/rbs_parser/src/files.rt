//! The declarations of terminals, by two readers.

ghost use Rattle.std.specs.Prelude.{◌≡◌, ◌++◌};
ghost use Rattle.std.specs.Option.{option_to_list};
ghost use Rattle.rbs_terminals.specs.Terminals.{AllStand, terminals};
ghost use Rattle.rbs_declarations.specs.Answers.{Answers};

use plain_data::Many;
use rbs_declarations::read_file;
use rbs_files::file_on;
use rbs_lexer::SigToken;
use rbs_phrases::Unread;
use rbs_terminals::{Terminals, Token};
use rbs_types::Refused;
use sig_model::decl::Decl;
use std::alloc::Global;

/// The declarations that the terminals of these tokens spell.
///
/// They are read phrase by phrase. Only where that finds none they are read again, one terminal at a time, which finds the place of the
/// fault.
///
/// # Errors
///
/// As [`read_file`].
fn read_whole(
    alloc: Global,
    file: u32,
    bytes: &[u8],
    tokens: &[SigToken],
) -> Result<Many<Decl>, Refused>
    requires { AllStand bytes.now 0 tokens.now }
    ensures { Answers file (terminals bytes.now tokens.now) result }
{
    match file_on(alloc, file, Terminals::new(alloc, bytes, tokens)) {
        Ok(decls) => Ok(decls),
        Err(Unread::NoMemory) => Err(Refused::NoMemory),
        Err(Unread::Other) => read_file(alloc, file, Terminals::new(alloc, bytes, tokens), None),
    }
}

/// The declarations that the terminals of these tokens spell, with `stop` behind them: the terminal at which the bytes stop being tokens,
/// where they do.
///
/// # Errors
///
/// As [`read_file`].
pub fn read(
    alloc: Global,
    file: u32,
    bytes: &[u8],
    tokens: &[SigToken],
    stop: Option<Token>,
) -> Result<Many<Decl>, Refused>
    requires { AllStand bytes.now 0 tokens.now }
    ensures { Answers file (terminals bytes.now tokens.now ++ option_to_list stop) result }
{
    match stop {
        None => read_whole(alloc, file, bytes, tokens),
        stop => read_file(alloc, file, Terminals::new(alloc, bytes, tokens), stop),
    }
}
