//! The core signature as cases of the reader and the printer.

use crate::failed::Failed;
use crate::reading::LARGEST;
use crate::shown_declarations::add_file;
use core_texts::{CORE_RBS, core_signature};
use plain_data::Many;
use rbs_lexer::divide;
use rbs_parser::{ParseRefused, parse};
use rbs_printer::print;
use sig_model::decl::Decl;
use std::alloc::{AllocError, Global};

/// The declarations that a text spells, or `None` where it is refused.
fn read(alloc: Global, text: &[u8]) -> Result<Option<Many<Decl>>, Failed> {
    if text.len() > LARGEST {
        return Err(Failed::Table);
    }
    let divided = divide(alloc, 0, text)?;
    match parse(alloc, 0, text, &divided) {
        Ok(declarations) => Ok(Some(declarations)),
        Err(ParseRefused::Syntax(_) | ParseRefused::Limit(_)) => Ok(None),
        Err(ParseRefused::NoMemory) => Err(Failed::NoMemory),
    }
}

/// Whether the text of the core signature is read as its declarations, with their places.
pub fn is_read(alloc: Global) -> Result<bool, Failed> {
    let expected = core_signature(alloc)?;
    match read(alloc, CORE_RBS.as_bytes())? {
        Some(declarations) => Ok(declarations == expected),
        None => Ok(false),
    }
}

/// Declarations as the tables write them, but without their places, each of which is the last of what stands in parentheses.
fn shown_without_places(alloc: Global, declarations: &[Decl]) -> Result<String, AllocError> {
    let mut text = String::new(alloc);
    add_file(&mut text, declarations)?;
    let mut shown = String::new(alloc);
    for piece in text.as_str().split(" @") {
        match piece.split_once(')') {
            Some((_, behind)) if !shown.is_empty() => {
                shown.push(')')?;
                shown.push_str(behind)?;
            }
            _ => shown.push_str(piece)?,
        }
    }
    Ok(shown)
}

/// Whether the printed form of the core signature is read back as the same declarations, places aside, and printed so again.
pub fn is_printed(alloc: Global) -> Result<bool, Failed> {
    let declarations = core_signature(alloc)?;
    let mut printed = Many::new(alloc);
    print(alloc, declarations.as_slice(), &mut printed)?;
    let Some(read) = read(alloc, printed.as_slice())? else {
        return Ok(false);
    };
    let mut again = Many::new(alloc);
    print(alloc, read.as_slice(), &mut again)?;
    let expected = shown_without_places(alloc, declarations.as_slice())?;
    let shown = shown_without_places(alloc, read.as_slice())?;
    Ok(again == printed && shown.as_str() == expected.as_str())
}
