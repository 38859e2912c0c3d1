//! Types within the limits.

ghost use Rattle.std.specs.Prelude.{◌≡◌, ◌≤◌, ◌<◌, ◌+◌, length, true, IfOk, OnOk};
ghost use Rattle.sig_model.specs.Height.{height};
ghost use Rattle.rbs_types.specs.Parts.{no_parameters, function_with};
ghost use Rattle.rbs_phrases.specs.Fronts.{whole};
ghost use Rattle.rbs_phrases.specs.Uses.{use_of};
ghost use Rattle.rbs_files.specs.Within.{IsType, IsFunction, IsApplied};

use rbs_phrases::{Cursor, Unread, Use, name_on, types_on};
use rbs_terminals::Mark;
use rbs_types::{FunctionHead, Tall, Talls};
use std::alloc::Global;

/// The most that a type is high.
const MAX_HEIGHT: u32 = 200;

/// No more than `room` brackets were opened behind the first `before`, and types of this height are low enough.
fn fits(cursor: &Cursor, before: u32, room: u32, levels: u32) -> bool
    ensures { result ≡ true → ((cursor.now.opened ≤ before + room) × (levels ≤ 200)) }
{
    cursor.opened() <= before.saturating_add(room) && levels <= MAX_HEIGHT
}

/// The type, if it is low enough and no more than `room` brackets were opened behind the first `before`.
fn within(cursor: &Cursor, before: u32, room: u32, ty: Tall) -> Result<Tall, Unread>
    ensures { IfOk result (λ t. (t ≡ ty) × (cursor.now.opened ≤ before + room) × (height ty ≤ 200)) }
{
    if fits(cursor, before, room, ty.levels()) {
        Ok(ty)
    } else {
        Err(Unread::Other)
    }
}

/// A type.
pub fn type_on(alloc: Global, cursor: &mut Cursor, room: u32) -> Result<Tall, Unread>
    ensures phrase { IfOk result (λ t. IsType room t cursor.old.rest cursor.new.rest) }
    ensures kept { OnOk result (whole cursor.new ≡ whole cursor.old) }
    ensures shorter { OnOk result (length cursor.new.rest < length cursor.old.rest) }
{
    let before = cursor.opened();
    let ty = rbs_phrases::type_on(alloc, cursor)?;
    within(cursor, before, room, ty)
}

/// The parameters and the block of a method, which go into its head, and its result.
pub fn function_on(
    alloc: Global,
    cursor: &mut Cursor,
    room: u32,
    head: &mut FunctionHead,
) -> Result<Tall, Unread>
    requires { head.old.parameters ≡ no_parameters }
    ensures phrase { IfOk result (λ outcome. IsFunction room (function_with head.new outcome) cursor.old.rest cursor.new.rest) }
    ensures kept { OnOk result (whole cursor.new ≡ whole cursor.old) }
    ensures shorter { OnOk result (length cursor.new.rest < length cursor.old.rest) }
{
    let before = cursor.opened();
    let outcome = rbs_phrases::function_on(alloc, cursor, head)?;
    if fits(cursor, before, room, head.levels(&outcome)) {
        Ok(outcome)
    } else {
        Err(Unread::Other)
    }
}

/// A name that may have arguments, as a type.
pub fn applied_on(alloc: Global, cursor: &mut Cursor, room: u32, usage: Use) -> Result<Tall, Unread>
    ensures phrase { IfOk result (λ t. IsApplied room (use_of usage) t cursor.old.rest cursor.new.rest) }
    ensures kept { OnOk result (whole cursor.new ≡ whole cursor.old) }
    ensures shorter { OnOk result (length cursor.new.rest < length cursor.old.rest) }
{
    let name = name_on(alloc, cursor, usage)?;
    let before = cursor.opened();
    if !cursor.skip(Mark::OpenSquare)? {
        return Ok(Tall::name(name, Talls::new(alloc)));
    }
    let args = types_on(alloc, cursor)?;
    cursor.expect(Mark::CloseSquare)?;
    within(cursor, before, room, Tall::name(name, args))
}
