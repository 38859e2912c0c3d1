//! The declarations and the type of a text.

ghost use Rattle.std.specs.Prelude.{◌≡◌, ◌<◌, ◌≤◌, ◌^◌, length};
ghost use Rattle.sig_model.specs.PlainTy.{PlainTy};
ghost use Rattle.sig_model.specs.PlainDecl.{PlainDecls};
ghost use Rattle.rbs_lexer.specs.Division.{end_of, span, IsDivided};
ghost use Rattle.rbs_parser.specs.Texts.{refusal, IsFile, IsType, AnswersFile, AnswersType};

use crate::files::read;
use crate::refused::ParseRefused;
use crate::stops::stop_behind;
use plain_data::Many;
use rbs_lexer::Divided;
use rbs_terminals::Terminals;
use rbs_types::{Refused, read_type};
use sig_model::decl::Decl;
use sig_model::place::Place;
use sig_model::ty::Ty;
use std::alloc::Global;

/// The most bytes of a text.
const LIMIT: usize = 1_048_576;

/// One byte's place, with no width.
fn byte_place(file: u32, at: u32) -> Place
    ensures { result ≡ span file at at }
{
    Place {
        file,
        start: at,
        end: at,
    }
}

/// The refusal of a text of this file, where its terminals are refused so.
fn refusal(file: u32, refused: Refused) -> ParseRefused
    ensures { result ≡ refusal file refused }
{
    match refused {
        Refused::Syntax(at) => ParseRefused::Syntax(byte_place(file, at)),
        Refused::Limit(at) => ParseRefused::Limit(byte_place(file, at)),
        Refused::NoMemory => ParseRefused::NoMemory,
    }
}

/// The declarations that the bytes of the file of this number spell, in their order. `divided` is how the bytes divide into tokens, as
/// `rbs_lexer::divide` answers it. Bytes spell one list of declarations at most.
///
/// The place of a declaration or a member runs from the first byte of its first token to the end of its last.
///
/// # Errors
///
/// `Syntax` and `Limit` where the bytes go wrong, as [`ParseRefused`] says; `NoMemory` where there is none for the declarations.
pub fn parse(
    alloc: Global,
    file: u32,
    bytes: &[u8],
    divided: &Divided,
) -> Result<Many<Decl>, ParseRefused>
    requires { IsDivided file divided.now.tokens (end_of divided.now.ending) bytes.now }
    ensures answer { AnswersFile file bytes.now result }
    ensures once { (ds es : PlainDecls) → IsFile file ds bytes.now → IsFile file es bytes.now → ds ≡ es }
{
    if bytes.len() > LIMIT {
        return Err(ParseRefused::Limit(byte_place(file, 0)));
    }
    let tokens = divided.tokens.as_slice();
    let stop = stop_behind(alloc, tokens, divided.ending);
    match read(alloc, file, bytes, tokens, stop) {
        Ok(decls) => Ok(decls),
        Err(refused) => Err(refusal(file, refused)),
    }
}

/// The one `type` that the bytes of the file of this number spell. `divided` is how the bytes divide into tokens, as `rbs_lexer::divide`
/// answers it. Bytes spell one type at most.
///
/// # Errors
///
/// `Syntax` and `Limit` where the bytes go wrong, as [`ParseRefused`] says; `NoMemory` where there is none for the type.
pub fn parse_type(
    alloc: Global,
    file: u32,
    bytes: &[u8],
    divided: &Divided,
) -> Result<Ty, ParseRefused>
    requires { IsDivided file divided.now.tokens (end_of divided.now.ending) bytes.now }
    ensures answer { AnswersType file bytes.now result }
    ensures once { (t u : PlainTy) → IsType file t bytes.now → IsType file u bytes.now → t ≡ u }
{
    if bytes.len() > LIMIT {
        return Err(ParseRefused::Limit(byte_place(file, 0)));
    }
    let tokens = divided.tokens.as_slice();
    let stop = stop_behind(alloc, tokens, divided.ending);
    let terminals = Terminals::new(alloc, bytes, tokens);
    match read_type(alloc, terminals, stop) {
        Ok(ty) => Ok(ty),
        Err(refused) => Err(refusal(file, refused)),
    }
}
