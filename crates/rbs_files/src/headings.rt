//! What stands before the parts of a class, a module or an interface.

ghost use Rattle.std.specs.Prelude.{◌≡◌, ◌≤◌, ◌<◌, List, length, IfOk, OnOk};
ghost use Rattle.rbs_terminals.specs.declared.token.Token.{Token};
ghost use Rattle.sig_model.specs.PlainTy as plain;
ghost use Rattle.rbs_types.specs.Grammar.{of_interface, Name};
ghost use Rattle.rbs_phrases.specs.Fronts.{whole};
ghost use Rattle.rbs_files.specs.Within.{IsParams, IsParent, IsSelves};
ghost use Rattle.rbs_files.specs.Onward.{IsClassHeading, IsModuleHeading, AreSelfTypes};

use crate::params::params_on;
use crate::types::applied_on;
use rbs_declarations::plain::Params;
use rbs_phrases::{Cursor, Unread, Use, name_on};
use rbs_terminals::Mark;
use rbs_types::{Tall, Talls};
use sig_model::ty::TypeName;
use std::alloc::Global;

/// The class behind `<`, or none.
fn parent_on(alloc: Global, cursor: &mut Cursor, room: u32) -> Result<Option<Tall>, Unread>
    ensures phrase { IfOk result (λ t. IsParent room t cursor.old.rest cursor.new.rest) }
    ensures kept { OnOk result (whole cursor.new ≡ whole cursor.old) }
    ensures shorter { OnOk result (length cursor.new.rest ≤ length cursor.old.rest) }
{
    if !cursor.skip(Mark::Less)? {
        return Ok(None);
    }
    let parent = applied_on(alloc, cursor, room, Use::Class)?;
    Ok(Some(parent))
}

/// What a module may be mixed into, behind the colon.
fn self_types_on(alloc: Global, cursor: &mut Cursor, room: u32) -> Result<Talls, Unread>
    ensures phrase { IfOk result (λ us. AreSelfTypes room plain.no_tys us cursor.old.rest cursor.new.rest) }
    ensures kept { OnOk result (whole cursor.new ≡ whole cursor.old) }
    ensures shorter { OnOk result (length cursor.new.rest < length cursor.old.rest) }
{
    let mut done = Talls::new(alloc);
    let mut more = true;
    while more {
        let ty = applied_on(alloc, cursor, room, Use::ClassOrInterface)?;
        done = done.with(ty)?;
        more = cursor.skip(Mark::Comma)?;
    }
    Ok(done)
}

/// What a module may be mixed into, with the colon, or nothing.
fn selves_on(alloc: Global, cursor: &mut Cursor, room: u32) -> Result<Talls, Unread>
    ensures phrase { IfOk result (λ us. IsSelves room us cursor.old.rest cursor.new.rest) }
    ensures kept { OnOk result (whole cursor.new ≡ whole cursor.old) }
    ensures shorter { OnOk result (length cursor.new.rest ≤ length cursor.old.rest) }
{
    if !cursor.skip(Mark::Colon)? {
        return Ok(Talls::new(alloc));
    }
    self_types_on(alloc, cursor, room)
}

/// The name, the type parameters and the parent of a class.
pub fn class_heading_on(
    alloc: Global,
    cursor: &mut Cursor,
    room: u32,
) -> Result<(TypeName, Params, Option<Tall>), Unread>
    ensures phrase { IfOk result (λ h. IsClassHeading room h cursor.old.rest cursor.new.rest) }
    ensures kept { OnOk result (whole cursor.new ≡ whole cursor.old) }
    ensures shorter { OnOk result (length cursor.new.rest < length cursor.old.rest) }
{
    let name = name_on(alloc, cursor, Use::Class)?;
    let params = params_on(alloc, cursor, room)?;
    let parent = parent_on(alloc, cursor, room)?;
    Ok((name, params, parent))
}

/// The name and the type parameters of a module, and what it may be mixed into.
pub fn module_heading_on(
    alloc: Global,
    cursor: &mut Cursor,
    room: u32,
) -> Result<(TypeName, Params, Talls), Unread>
    ensures phrase { IfOk result (λ h. IsModuleHeading room h cursor.old.rest cursor.new.rest) }
    ensures kept { OnOk result (whole cursor.new ≡ whole cursor.old) }
    ensures shorter { OnOk result (length cursor.new.rest < length cursor.old.rest) }
{
    let name = name_on(alloc, cursor, Use::Class)?;
    let params = params_on(alloc, cursor, room)?;
    let selves = selves_on(alloc, cursor, room)?;
    Ok((name, params, selves))
}

/// The name and the type parameters of an interface.
pub fn interface_heading_on(
    alloc: Global,
    cursor: &mut Cursor,
    room: u32,
) -> Result<(TypeName, Params), Unread>
    ensures phrase { IfOk result (λ h. (mid : List Token) × Name of_interface h.0 cursor.old.rest mid × IsParams room h.1 mid cursor.new.rest) }
    ensures kept { OnOk result (whole cursor.new ≡ whole cursor.old) }
    ensures shorter { OnOk result (length cursor.new.rest < length cursor.old.rest) }
{
    let name = name_on(alloc, cursor, Use::Interface)?;
    let params = params_on(alloc, cursor, room)?;
    Ok((name, params))
}
