//! Declarations and their parts.

ghost use Rattle.std.specs.Prelude.{ℕ, ◌≡◌, ◌≤◌, ◌<◌, ◌∷◌, List, length, IfOk, OnOk};
ghost use Rattle.rbs_terminals.specs.declared.token.Token.{Token};
ghost use Rattle.rbs_terminals.specs.declared.token.Spot.{Spot};
ghost use Rattle.rbs_terminals.specs.declared.token.Keyword.TheVariants as keyword;
ghost use Rattle.sig_model.specs.PlainDecl.{plain_decl, plain_body};
ghost use Rattle.rbs_types.specs.Symbols.{token, word};
ghost use Rattle.rbs_phrases.specs.Fronts.{whole};
ghost use Rattle.rbs_files.specs.Within.{IsBody, IsDeclaration, AreParts, AreInterfaceParts};
ghost use Rattle.rbs_files.specs.Onward.{IsNoted, Ended, GrowsParts, GrowsInterface};

use crate::ends::end_here;
use crate::headings::{class_heading_on, interface_heading_on, module_heading_on};
use crate::keywords::{keyword_next, skip_keyword};
use crate::members::{interface_member_from, member_from};
use crate::notes::{Noted, notes_on};
use crate::params::params_on;
use crate::types::type_on;
use rbs_declarations::built::{class, constant, interface, module, type_alias};
use rbs_declarations::plain::Parts;
use rbs_phrases::{Cursor, Unread, Use, name_from, name_on};
use rbs_terminals::{Keyword, Kind, Mark};
use sig_model::decl::{Decl, DeclBody};
use sig_model::place::Place;
use std::alloc::Global;

/// The word `end` follows.
fn end_next(cursor: &Cursor) -> bool {
    keyword_next(cursor, Keyword::End)
}

/// The word `end`, and where it ends.
fn end_on(cursor: &mut Cursor) -> Result<u32, Unread>
    ensures phrase { IfOk result (λ e. Ended e cursor.old.rest cursor.new.rest) }
    ensures kept { OnOk result (whole cursor.new ≡ whole cursor.old) }
    ensures shorter { OnOk result (length cursor.new.rest < length cursor.old.rest) }
{
    if skip_keyword(cursor, Keyword::End)? {
        Ok(cursor.end())
    } else {
        Err(Unread::Other)
    }
}

/// The terminal begins a declaration, where it begins no member.
fn begins_body(kind: &Kind) -> bool {
    match kind {
        Kind::Upper(_) | Kind::Mark(Mark::Scope) => true,
        Kind::Keyword(Keyword::Class | Keyword::Module | Keyword::Interface | Keyword::Type) =>
            true,
        _ => false,
    }
}

/// Adds a member behind its notes to the parts.
fn member_part_from(
    alloc: Global,
    cursor: &mut Cursor,
    file: u32,
    room: u32,
    parts: &mut Parts,
    noted: Noted,
) -> Result<(), Unread>
    ensures phrase { (ts : List Token) → IsNoted noted cursor.old.end ts cursor.old.rest → OnOk result (GrowsParts room file (whole cursor.old).last parts.old parts.new ts cursor.new.rest) }
    ensures kept { OnOk result (whole cursor.new ≡ whole cursor.old) }
    ensures shorter { OnOk result (length cursor.new.rest ≤ length cursor.old.rest) }
{
    let Noted { notes, start, kind } = noted;
    let (member, end) = member_from(alloc, cursor, room, kind)?;
    parts.add_member(Place { file, start, end }, notes, member)?;
    Ok(())
}

/// Adds one more to the parts of an interface.
fn interface_part_on(
    alloc: Global,
    cursor: &mut Cursor,
    file: u32,
    room: u32,
    parts: &mut Parts,
) -> Result<(), Unread>
    ensures phrase { OnOk result (GrowsInterface room file (whole cursor.old).last parts.old parts.new cursor.old.rest cursor.new.rest) }
    ensures kept { OnOk result (whole cursor.new ≡ whole cursor.old) }
    ensures shorter { OnOk result (length cursor.new.rest < length cursor.old.rest) }
{
    let Noted { notes, start, kind } = notes_on(alloc, cursor)?;
    let (member, end) = interface_member_from(alloc, cursor, room, kind)?;
    parts.add_member(Place { file, start, end }, notes, member)?;
    Ok(())
}

/// The parts of an interface, up to its `end`.
fn interface_parts_on(
    alloc: Global,
    cursor: &mut Cursor,
    file: u32,
    room: u32,
) -> Result<Parts, Unread>
    ensures phrase { IfOk result (λ ps. AreInterfaceParts room file (whole cursor.old).last ps cursor.old.rest cursor.new.rest) }
    ensures kept { OnOk result (whole cursor.new ≡ whole cursor.old) }
    ensures shorter { OnOk result (length cursor.new.rest ≤ length cursor.old.rest) }
{
    let mut parts = Parts::new(alloc);
    while !end_next(cursor) {
        interface_part_on(alloc, cursor, file, room, &mut parts)?;
    }
    Ok(parts)
}

/// An interface, behind its first word, and where it ends.
fn interface_on(
    alloc: Global,
    cursor: &mut Cursor,
    file: u32,
    room: u32,
) -> Result<(DeclBody, u32), Unread>
    ensures phrase { (s : Spot) → IfOk result (λ found. IsBody room file (whole cursor.old).last (plain_body found.0) found.1 (word keyword.Interface s ∷ cursor.old.rest) cursor.new.rest) }
    ensures kept { OnOk result (whole cursor.new ≡ whole cursor.old) }
    ensures shorter { OnOk result (length cursor.new.rest ≤ length cursor.old.rest) }
{
    if room == 0 {
        return Err(Unread::Other);
    }
    let (name, params) = interface_heading_on(alloc, cursor, room - 1)?;
    let parts = interface_parts_on(alloc, cursor, file, room - 1)?;
    let end = end_on(cursor)?;
    Ok((interface(name, params, parts), end))
}

/// A name of a type, behind its first word, and where its type ends.
fn alias_on(alloc: Global, cursor: &mut Cursor, room: u32) -> Result<(DeclBody, u32), Unread>
    ensures phrase { (file : ℕ) → (s : Spot) → IfOk result (λ found. IsBody room file (whole cursor.old).last (plain_body found.0) found.1 (word keyword.Type s ∷ cursor.old.rest) cursor.new.rest) }
    ensures kept { OnOk result (whole cursor.new ≡ whole cursor.old) }
    ensures shorter { OnOk result (length cursor.new.rest ≤ length cursor.old.rest) }
{
    let name = name_on(alloc, cursor, Use::Alias)?;
    let params = params_on(alloc, cursor, room)?;
    cursor.expect(Mark::Equals)?;
    let ty = type_on(alloc, cursor, room)?;
    Ok((type_alias(name, params, ty), end_here(cursor)))
}

/// A constant whose first terminal is this, and where its type ends.
fn constant_from(
    alloc: Global,
    cursor: &mut Cursor,
    room: u32,
    kind: Kind,
) -> Result<(DeclBody, u32), Unread>
    ensures phrase { (file : ℕ) → (s : Spot) → IfOk result (λ found. IsBody room file (whole cursor.old).last (plain_body found.0) found.1 (token kind s ∷ cursor.old.rest) cursor.new.rest) }
    ensures kept { OnOk result (whole cursor.new ≡ whole cursor.old) }
    ensures shorter { OnOk result (length cursor.new.rest ≤ length cursor.old.rest) }
{
    let name = name_from(alloc, cursor, Use::Class, kind)?;
    cursor.expect(Mark::Colon)?;
    let ty = type_on(alloc, cursor, room)?;
    Ok((constant(name, ty), end_here(cursor)))
}

/// A class, behind its first word, and where it ends.
#[cycle(parts)]
fn class_on(
    alloc: Global,
    cursor: &mut Cursor,
    file: u32,
    room: u32,
) -> Result<(DeclBody, u32), Unread>
    ensures phrase { (s : Spot) → IfOk result (λ found. IsBody room file (whole cursor.old).last (plain_body found.0) found.1 (word keyword.Class s ∷ cursor.old.rest) cursor.new.rest) }
    ensures kept { OnOk result (whole cursor.new ≡ whole cursor.old) }
    ensures shorter { OnOk result (length cursor.new.rest ≤ length cursor.old.rest) }
{
    if room == 0 {
        return Err(Unread::Other);
    }
    let (name, params, parent) = class_heading_on(alloc, cursor, room - 1)?;
    let parts = parts_on(alloc, cursor, file, room - 1)?;
    let end = end_on(cursor)?;
    Ok((class(name, params, parent, parts), end))
}

/// A module, behind its first word, and where it ends.
#[cycle(parts)]
fn module_on(
    alloc: Global,
    cursor: &mut Cursor,
    file: u32,
    room: u32,
) -> Result<(DeclBody, u32), Unread>
    ensures phrase { (s : Spot) → IfOk result (λ found. IsBody room file (whole cursor.old).last (plain_body found.0) found.1 (word keyword.Module s ∷ cursor.old.rest) cursor.new.rest) }
    ensures kept { OnOk result (whole cursor.new ≡ whole cursor.old) }
    ensures shorter { OnOk result (length cursor.new.rest ≤ length cursor.old.rest) }
{
    if room == 0 {
        return Err(Unread::Other);
    }
    let (name, params, selves) = module_heading_on(alloc, cursor, room - 1)?;
    let parts = parts_on(alloc, cursor, file, room - 1)?;
    let end = end_on(cursor)?;
    Ok((module(name, params, selves, parts), end))
}

/// What is declared, which begins with this terminal, and where it ends.
#[cycle(parts)]
fn body_from(
    alloc: Global,
    cursor: &mut Cursor,
    file: u32,
    room: u32,
    kind: Kind,
) -> Result<(DeclBody, u32), Unread>
    ensures phrase { (s : Spot) → IfOk result (λ found. IsBody room file (whole cursor.old).last (plain_body found.0) found.1 (token kind s ∷ cursor.old.rest) cursor.new.rest) }
    ensures kept { OnOk result (whole cursor.new ≡ whole cursor.old) }
    ensures shorter { OnOk result (length cursor.new.rest ≤ length cursor.old.rest) }
{
    match kind {
        Kind::Keyword(Keyword::Class) => class_on(alloc, cursor, file, room),
        Kind::Keyword(Keyword::Module) => module_on(alloc, cursor, file, room),
        Kind::Keyword(Keyword::Interface) => interface_on(alloc, cursor, file, room),
        Kind::Keyword(Keyword::Type) => alias_on(alloc, cursor, room),
        kind => constant_from(alloc, cursor, room, kind),
    }
}

/// A declaration, behind its notes.
#[cycle(parts)]
pub fn declaration_from(
    alloc: Global,
    cursor: &mut Cursor,
    file: u32,
    room: u32,
    noted: Noted,
) -> Result<Decl, Unread>
    ensures phrase { (ts : List Token) → IsNoted noted cursor.old.end ts cursor.old.rest → IfOk result (λ d. IsDeclaration room file (whole cursor.old).last (plain_decl d) ts cursor.new.rest) }
    ensures kept { OnOk result (whole cursor.new ≡ whole cursor.old) }
    ensures shorter { OnOk result (length cursor.new.rest ≤ length cursor.old.rest) }
{
    let Noted { notes, start, kind } = noted;
    let (body, end) = body_from(alloc, cursor, file, room, kind)?;
    Ok(Decl {
        place: Place { file, start, end },
        notes,
        body,
    })
}

/// Adds one more to the parts of a class or a module.
#[cycle(parts)]
fn part_on(
    alloc: Global,
    cursor: &mut Cursor,
    file: u32,
    room: u32,
    parts: &mut Parts,
) -> Result<(), Unread>
    ensures phrase { OnOk result (GrowsParts room file (whole cursor.old).last parts.old parts.new cursor.old.rest cursor.new.rest) }
    ensures kept { OnOk result (whole cursor.new ≡ whole cursor.old) }
    ensures shorter { OnOk result (length cursor.new.rest < length cursor.old.rest) }
{
    let noted = notes_on(alloc, cursor)?;
    if begins_body(&noted.kind) {
        let inner = declaration_from(alloc, cursor, file, room, noted)?;
        parts.add_inner(inner)?;
        Ok(())
    } else {
        member_part_from(alloc, cursor, file, room, parts, noted)
    }
}

/// The parts of a class or a module, up to its `end`.
#[cycle(parts)]
fn parts_on(alloc: Global, cursor: &mut Cursor, file: u32, room: u32) -> Result<Parts, Unread>
    ensures phrase { IfOk result (λ ps. AreParts room file (whole cursor.old).last ps cursor.old.rest cursor.new.rest) }
    ensures kept { OnOk result (whole cursor.new ≡ whole cursor.old) }
    ensures shorter { OnOk result (length cursor.new.rest ≤ length cursor.old.rest) }
{
    let mut parts = Parts::new(alloc);
    while !end_next(cursor) {
        part_on(alloc, cursor, file, room, &mut parts)?;
    }
    Ok(parts)
}
