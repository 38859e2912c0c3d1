//! Behind a type.

ghost use Rattle.rbs_types.specs.Machine as machine;
ghost use Rattle.rbs_types.specs.Does.{Does};

use crate::begins::{at, within};
use crate::parameters::in_parameter;
use crate::parts::{all_ended, ended, joined_inter, joined_union, level_of};
use crate::refused::{Stuck, lack, refuse};
use crate::stack::Stack;
use crate::state::{Focus, Frame, Head, Level, Listed, Members, State};
use crate::tall::{Block, Keys, Tall, Talls};
use plain_data::{NoMemory, Word};
use rbs_terminals::{Kind, Mark};
use sig_model::ty::TypeName;
use std::alloc::Global;

/// Behind an argument of a name.
fn in_arguments(
    alloc: Global,
    ty: Tall,
    name: TypeName,
    done: Talls,
    outer: Level,
    frames: Stack<Frame>,
    kind: Kind,
) -> Result<State, Stuck>
    ensures { Does (machine.in_arguments ty name done outer frames kind) result }
{
    match kind {
        Kind::Mark(Mark::Comma) => {
            let done = done.with(ty)?;
            within(alloc, Frame::Arguments { name, done, outer }, frames)
        }
        Kind::Mark(Mark::CloseSquare) => {
            let ty = Tall::name(name, done.with(ty)?);
            Ok(at(Focus::Simple { ty, level: outer }, frames))
        }
        kind => refuse((ty, name, done, outer, frames, kind)),
    }
}

/// Behind a member of a tuple.
fn in_tuple(
    alloc: Global,
    ty: Tall,
    done: Talls,
    outer: Level,
    frames: Stack<Frame>,
    kind: Kind,
) -> Result<State, Stuck>
    ensures { Does (machine.in_tuple ty done outer frames kind) result }
{
    match kind {
        Kind::Mark(Mark::Comma) => {
            let done = done.with(ty)?;
            within(alloc, Frame::Tuple { done, outer }, frames)
        }
        Kind::Mark(Mark::CloseSquare) => {
            let ty = Tall::tuple(done.with(ty)?);
            Ok(at(Focus::Simple { ty, level: outer }, frames))
        }
        kind => refuse((ty, done, outer, frames, kind)),
    }
}

/// Behind the type of a key of a record.
fn in_record(
    ty: Tall,
    done: Keys,
    key: Word,
    needed: bool,
    outer: Level,
    frames: Stack<Frame>,
    kind: Kind,
) -> Result<State, Stuck>
    ensures { Does (machine.in_record ty done key needed outer frames kind) result }
{
    match kind {
        Kind::Mark(Mark::Comma) => {
            let done = done.with(key, needed, ty)?;
            Ok(at(Focus::Key { done, level: outer }, frames))
        }
        Kind::Mark(Mark::CloseBrace) => {
            let ty = Tall::record(done.with(key, needed, ty)?);
            Ok(at(Focus::Simple { ty, level: outer }, frames))
        }
        kind => refuse((ty, done, key, outer, frames, kind)),
    }
}

/// Behind a type in parentheses.
fn in_paren(ty: Tall, outer: Level, frames: Stack<Frame>, kind: Kind) -> Result<State, Stuck>
    ensures { Does (machine.in_paren ty outer frames kind) result }
{
    match kind {
        Kind::Mark(Mark::Close) => Ok(at(Focus::Simple { ty, level: outer }, frames)),
        kind => refuse((ty, outer, frames, kind)),
    }
}

/// Behind the result of a block.
fn in_block(
    alloc: Global,
    ty: Tall,
    needed: bool,
    inner: Listed,
    outer: Listed,
    level: Level,
    frames: Stack<Frame>,
    kind: Kind,
) -> Result<State, Stuck>
    ensures { Does (machine.in_block ty needed inner outer level frames kind) result }
{
    match kind {
        Kind::Mark(Mark::CloseBrace) => {
            match Block::of(alloc, needed, inner, ty) {
                Ok(block) => {
                    let head = Head {
                        listed: outer,
                        block,
                    };
                    Ok(at(Focus::Headed { head, level }, frames))
                }
                Err(NoMemory) => lack((outer, level, frames)),
            }
        }
        kind => refuse((ty, inner, outer, level, frames, kind)),
    }
}

/// Behind all that a bracket may hold as one type.
fn in_bracket(
    alloc: Global,
    ty: Tall,
    frame: Frame,
    frames: Stack<Frame>,
    kind: Kind,
) -> Result<State, Stuck>
    ensures { Does (machine.in_bracket ty frame frames kind) result }
{
    match frame {
        Frame::Paren { outer } => in_paren(ty, outer, frames, kind),
        Frame::Arguments { name, done, outer } => {
            in_arguments(alloc, ty, name, done, outer, frames, kind)
        }
        Frame::Tuple { done, outer } => in_tuple(alloc, ty, done, outer, frames, kind),
        Frame::Record {
            done,
            key,
            needed,
            outer,
        } => in_record(ty, done, key, needed, outer, frames, kind),
        Frame::Parameter {
            before,
            slot,
            owner,
        } => in_parameter(alloc, ty, before, slot, owner, frames, kind),
        Frame::Block {
            needed,
            inner,
            outer,
            level,
        } => in_block(alloc, ty, needed, inner, outer, level, frames, kind),
    }
}

/// Behind all that the innermost bracket, if there is one, may hold as one type.
fn after_type(alloc: Global, ty: Tall, frames: Stack<Frame>, kind: Kind) -> Result<State, Stuck>
    ensures { Does (machine.after_type ty frames kind) result }
{
    let mut frames = frames;
    match frames.pop() {
        None => refuse((ty, frames, kind)),
        Some(frame) => in_bracket(alloc, ty, frame, frames, kind),
    }
}

/// Behind an intersection, or a single member of one.
fn after_inter(
    alloc: Global,
    ty: Tall,
    unions: Talls,
    frames: Stack<Frame>,
    kind: Kind,
) -> Result<State, Stuck>
    ensures { Does (machine.after_inter ty unions frames kind) result }
{
    match kind {
        Kind::Mark(Mark::Bar) => {
            let unions = unions.with(ty)?;
            let inters = Talls::new(alloc);
            let level = level_of(alloc, Members::Operands { unions, inters });
            Ok(at(Focus::Type { level }, frames))
        }
        kind => after_type(alloc, joined_union(unions, ty)?, frames, kind),
    }
}

/// Behind a member of an intersection, or a type that stands alone.
fn after_operand(
    alloc: Global,
    ty: Tall,
    unions: Talls,
    inters: Talls,
    frames: Stack<Frame>,
    kind: Kind,
) -> Result<State, Stuck>
    ensures { Does (machine.after_operand ty unions inters frames kind) result }
{
    match kind {
        Kind::Mark(Mark::Amp) => {
            let inters = inters.with(ty)?;
            let level = level_of(alloc, Members::Operands { unions, inters });
            Ok(at(Focus::Type { level }, frames))
        }
        kind => after_inter(alloc, joined_inter(inters, ty)?, unions, frames, kind),
    }
}

/// Behind a type that no question mark may follow.
pub fn after_opt(
    alloc: Global,
    ty: Tall,
    members: Members,
    frames: Stack<Frame>,
    kind: Kind,
) -> Result<State, Stuck>
    ensures { Does (machine.after_opt ty members frames kind) result }
{
    match members {
        Members::Operands { unions, inters } => {
            after_operand(alloc, ty, unions, inters, frames, kind)
        }
        Members::Result | Members::Closed => after_type(alloc, ty, frames, kind),
    }
}

/// A question mark behind a type that has none.
fn asked(alloc: Global, ty: Tall, members: Members, frames: Stack<Frame>) -> Result<State, Stuck>
    ensures { Does (machine.asked ty members frames) result }
{
    match members {
        Members::Closed => after_type(alloc, ty, frames, Kind::Mark(Mark::Question)),
        members => {
            let ty = Tall::opt(alloc, ty)?;
            Ok(at(Focus::Optional { ty, members }, frames))
        }
    }
}

/// A question mark behind a type, which belongs to the result of the innermost function that ends here.
fn question(alloc: Global, ty: Tall, level: Level, frames: Stack<Frame>) -> Result<State, Stuck>
    ensures { Does (machine.question ty level.members level.heads frames) result }
{
    let Level { members, mut heads } = level;
    match heads.pop() {
        None => asked(alloc, ty, members, frames),
        Some(head) => {
            let ty = ended(alloc, head, Tall::opt(alloc, ty)?)?;
            let level = Level { members, heads };
            Ok(at(Focus::Simple { ty, level }, frames))
        }
    }
}

/// Behind a type that a question mark may follow.
pub fn after_simple(
    alloc: Global,
    ty: Tall,
    level: Level,
    frames: Stack<Frame>,
    kind: Kind,
) -> Result<State, Stuck>
    ensures { Does (machine.after_simple ty level frames kind) result }
{
    match kind {
        Kind::Mark(Mark::Question) => question(alloc, ty, level, frames),
        kind => {
            let Level { members, heads } = level;
            let ty = all_ended(alloc, heads, ty)?;
            after_opt(alloc, ty, members, frames, kind)
        }
    }
}
