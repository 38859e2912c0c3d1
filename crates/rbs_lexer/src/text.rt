//! The tokens of a text.

ghost use Rattle.std.specs.Prelude.{◌≡◌, ◌<◌, ◌^◌, length, IsUtf8, IfOk, IfErr, OnOk};
ghost use Rattle.rbs_lexer.specs.Division.{span, Answers};
ghost use Rattle.rbs_lexer.specs.Standing.{Stand, StandsRefused, RefusesBroken};

use crate::division::{Divided, Ending, divide};
use crate::refused::LexRefused;
use crate::token::SigToken;
use plain_data::Many;
use sig_model::place::Place;
use std::alloc::Global;

/// One byte's place, with no width.
fn byte_place(file: u32, at: u32) -> Place
    ensures { result ≡ span file at at }
{
    Place {
        file,
        start: at,
        end: at,
    }
}

/// The tokens of a signature file, in order, comments among them, each the longest that begins where it does. Between
/// them stand only blanks and newlines.
///
/// `Fault` stands at the first byte that begins no token, `Limit` at an integer past 64 bits; the earlier one is
/// answered. The text needs no valid UTF-8: a byte that belongs to no character begins no token.
pub fn tokens(alloc: Global, file: u32, bytes: &[u8]) -> Result<Many<SigToken>, LexRefused>
    requires { length bytes.now < 2 ^ 32 }
    ensures answer { Answers file bytes.now result }

    // What follows of a division, said plainly.
    ensures stand { IfOk result (Stand file bytes.now 0) }
    ensures utf8 { OnOk result (IsUtf8 bytes.now) }
    ensures refused { IfErr result (StandsRefused file bytes.now) }
    ensures broken { RefusesBroken bytes.now result }
{
    let Divided { tokens, ending } = divide(alloc, file, bytes)?;
    match ending {
        Ending::Whole => Ok(tokens),
        Ending::Stray(at) => Err(LexRefused::Fault(byte_place(file, at))),
        Ending::PastInteger(at) => Err(LexRefused::Limit(byte_place(file, at))),
    }
}
