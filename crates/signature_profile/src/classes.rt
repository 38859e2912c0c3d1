//! The classes that a signature file of the profile declares.

ghost use Rattle.std.specs.Prelude.{◌≡◌, ◌↔◌, ◌<◌, ◌^◌, length, IfOk, IsTrue};
ghost use Rattle.sig_model.specs.PlainDecl.{plain_decls};
ghost use Rattle.rbs_lexer.specs.Division.{end_of, IsDivided};
ghost use Rattle.rbs_parser.specs.Texts.{IsFile};
ghost use Rattle.signature_profile.specs.Profile.{Answers, IsSignature};

use crate::parentheses::opens_behind_colons;
use crate::shape::are_classes;
use crate::well_named::is_well_named;
use plain_data::{Many, NoMemory};
use rbs_lexer::{Divided, divide};
use rbs_parser::{ParseRefused, parse};
use rbs_terminals::Terminals;
use sig_model::decl::Decl;
use std::alloc::Global;

/// Whether a signature file, which spells these declarations, is one of the profile.
fn is_of_profile(
    alloc: Global,
    file: u32,
    bytes: &[u8],
    divided: &Divided,
    decls: &[Decl],
) -> Result<bool, NoMemory>
    requires divided { IsDivided file divided.now.tokens (end_of divided.now.ending) bytes.now }
    requires read { IsFile file (plain_decls decls.now) bytes.now }
    ensures { IfOk result (λ good. IsTrue good ↔ IsSignature file (plain_decls decls.now) bytes.now) }
{
    if !are_classes(decls) {
        return Ok(false);
    }
    let terminals = Terminals::new(alloc, bytes, divided.tokens.as_slice());
    if !opens_behind_colons(terminals)? {
        return Ok(false);
    }
    is_well_named(alloc, decls)
}

/// The classes that a signature file of the profile declares, in their order, each with its place and those of its methods, in bytes, or
/// `None` where the text is no such file. A method has one overload; the types in its parentheses are its required parameters, in their order.
///
/// # Errors
///
/// `NoMemory` where there is none to read the text.
pub fn read_classes(alloc: Global, file: u32, bytes: &[u8]) -> Result<Option<Many<Decl>>, NoMemory>
    requires { length bytes.now < 2 ^ 32 }
    ensures { IfOk result (Answers file bytes.now) }
{
    let divided = divide(alloc, file, bytes)?;
    match parse(alloc, file, bytes, &divided) {
        Ok(decls) => {
            if is_of_profile(alloc, file, bytes, &divided, decls.as_slice())? {
                Ok(Some(decls))
            } else {
                Ok(None)
            }
        }
        Err(ParseRefused::Syntax(_)) => Ok(None),
        Err(ParseRefused::Limit(_)) => Ok(None),
        Err(ParseRefused::NoMemory) => Err(NoMemory),
    }
}
