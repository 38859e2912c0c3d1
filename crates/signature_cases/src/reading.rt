//! What comes of reading a text, shown as the tables write it.

ghost use Rattle.rbs_lexer.specs.Division.{end_of, IsDivided};

use crate::escapes::add_escaped;
use crate::failed::Failed;
use crate::shown_declarations::add_file;
use crate::shown_types::add_type;
use plain_data::Many;
use rbs_lexer::{Divided, divide};
use rbs_parser::{ParseRefused, parse, parse_type};
use rbs_printer::print;
use sig_model::decl::Decl;
use std::alloc::Global;

/// What the text of a case is.
#[derive(Clone, Copy, Debug, PartialEq, Eq)]
pub enum Form {
    Type,
    File,
    /// A file that is printed.
    Printed,
}

/// The largest text, in bytes.
pub const LARGEST: usize = 16_777_216;

fn shown_refusal(alloc: Global, refused: ParseRefused) -> Result<String, Failed> {
    match refused {
        ParseRefused::Syntax(place) => Ok(format!(in alloc; "syntax {}", place.start)?),
        ParseRefused::Limit(place) => Ok(format!(in alloc; "limit {}", place.start)?),
        ParseRefused::NoMemory => Err(Failed::NoMemory),
    }
}

/// What comes of reading the text of a file, which divides so.
fn shown_file(alloc: Global, bytes: &[u8], divided: &Divided) -> Result<String, Failed>
    requires { IsDivided 0 divided.now.tokens (end_of divided.now.ending) bytes.now }
{
    match parse(alloc, 0, bytes, divided) {
        Ok(declarations) => {
            let mut text = String::from_str(alloc, "ok ")?;
            add_file(&mut text, declarations.as_slice())?;
            Ok(text)
        }
        Err(refused) => shown_refusal(alloc, refused),
    }
}

/// What comes of reading back what was printed and printing that again: the declarations' printed form, or `None` where it isn't read.
fn printed_again(alloc: Global, printed: &[u8]) -> Result<Option<Many<u8>>, Failed> {
    if printed.len() > LARGEST {
        return Err(Failed::Table);
    }
    let divided = divide(alloc, 0, printed)?;
    match parse(alloc, 0, printed, &divided) {
        Ok(declarations) => {
            let mut again = Many::new(alloc);
            print(alloc, declarations.as_slice(), &mut again)?;
            Ok(Some(again))
        }
        Err(ParseRefused::Syntax(_) | ParseRefused::Limit(_)) => Ok(None),
        Err(ParseRefused::NoMemory) => Err(Failed::NoMemory),
    }
}

/// The printed form of declarations, and whether it is read back so that it is printed so again.
fn shown_print(alloc: Global, declarations: &[Decl]) -> Result<String, Failed> {
    let mut printed = Many::new(alloc);
    print(alloc, declarations, &mut printed)?;
    let mut text = match printed_again(alloc, printed.as_slice())? {
        Some(again) if again == printed => String::from_str(alloc, "ok ")?,
        Some(_) => String::from_str(alloc, "other ")?,
        None => String::from_str(alloc, "unread ")?,
    };
    add_escaped(&mut text, printed.as_slice())?;
    Ok(text)
}

/// The printed form of what the text of a file spells, which divides so.
fn shown_printed(alloc: Global, bytes: &[u8], divided: &Divided) -> Result<String, Failed>
    requires { IsDivided 0 divided.now.tokens (end_of divided.now.ending) bytes.now }
{
    match parse(alloc, 0, bytes, divided) {
        Ok(declarations) => shown_print(alloc, declarations.as_slice()),
        Err(refused) => shown_refusal(alloc, refused),
    }
}

/// What comes of reading the text of a type, which divides so.
fn shown_type(alloc: Global, bytes: &[u8], divided: &Divided) -> Result<String, Failed>
    requires { IsDivided 0 divided.now.tokens (end_of divided.now.ending) bytes.now }
{
    match parse_type(alloc, 0, bytes, divided) {
        Ok(ty) => {
            let mut text = String::from_str(alloc, "ok ")?;
            add_type(&mut text, &ty)?;
            Ok(text)
        }
        Err(refused) => shown_refusal(alloc, refused),
    }
}

/// What comes of reading a text. A case has a line of the table for it, which is shorter than the table.
pub fn shown_outcome(alloc: Global, form: Form, text: &[u8]) -> Result<String, Failed> {
    if text.len() > LARGEST {
        return Err(Failed::Table);
    }
    let divided = divide(alloc, 0, text)?;
    match form {
        Form::Type => shown_type(alloc, text, &divided),
        Form::File => shown_file(alloc, text, &divided),
        Form::Printed => shown_printed(alloc, text, &divided),
    }
}
