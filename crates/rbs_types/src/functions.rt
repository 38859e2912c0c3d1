//! Functions from their parameters to their arrows.

ghost use Rattle.rbs_types.specs.Machine as machine;
ghost use Rattle.rbs_types.specs.Parts as parts;
ghost use Rattle.rbs_types.specs.Does.{Does};

use crate::begins::at;
use crate::parts::{level_of, nothing_listed};
use crate::refused::{Stuck, refuse};
use crate::stack::Stack;
use crate::state::{Focus, Frame, Head, Level, Listed, Members, Owner, State};
use crate::tall::Block;
use rbs_terminals::{Kind, Mark, is_mark};
use std::alloc::Global;

/// Behind the head of a function, up to its arrow.
pub fn after_headed(
    head: Head,
    level: Level,
    frames: Stack<Frame>,
    kind: Kind,
) -> Result<State, Stuck>
    ensures { Does (machine.after_headed head level frames kind) result }
{
    match kind {
        Kind::Mark(Mark::Arrow) => {
            let Level { members, heads } = level;
            let heads = heads.with(head)?;
            let level = Level { members, heads };
            Ok(at(Focus::Type { level }, frames))
        }
        kind => refuse((head, level, frames, kind)),
    }
}

/// Behind the parameters of a function.
fn after_outer(
    listed: Listed,
    level: Level,
    frames: Stack<Frame>,
    kind: Kind,
) -> Result<State, Stuck>
    ensures { Does (machine.after_outer listed level frames kind) result }
{
    match kind {
        Kind::Mark(Mark::Question) => Ok(at(
            Focus::BlockQuestion {
                outer: listed,
                level,
            },
            frames,
        )),
        Kind::Mark(Mark::OpenBrace) => Ok(at(
            Focus::Block {
                needed: true,
                outer: listed,
                level,
            },
            frames,
        )),
        kind => {
            let block = Block::none();
            after_headed(Head { listed, block }, level, frames, kind)
        }
    }
}

/// Behind the parameters of a block.
fn after_inner(
    alloc: Global,
    needed: bool,
    inner: Listed,
    outer: Listed,
    level: Level,
    frames: Stack<Frame>,
    kind: Kind,
) -> Result<State, Stuck>
    ensures { Does (machine.after_inner needed inner outer level frames kind) result }
{
    match kind {
        Kind::Mark(Mark::Arrow) => {
            let frames = frames.with(Frame::Block {
                needed,
                inner,
                outer,
                level,
            })?;
            let level = level_of(alloc, Members::Result);
            Ok(at(Focus::Type { level }, frames))
        }
        kind => refuse((inner, outer, level, frames, kind)),
    }
}

/// Behind the parenthesis that closes these parameters.
pub fn after_listed(
    alloc: Global,
    listed: Listed,
    owner: Owner,
    frames: Stack<Frame>,
    kind: Kind,
) -> Result<State, Stuck>
    ensures { Does (machine.after_listed listed owner frames kind) result }
{
    match owner {
        Owner::Function(level) => after_outer(listed, level, frames, kind),
        Owner::Block {
            needed,
            outer,
            level,
        } => after_inner(alloc, needed, listed, outer, level, frames, kind),
    }
}

/// What a token does behind no parameters of a function.
fn after_nothing(
    alloc: Global,
    level: Level,
    frames: Stack<Frame>,
    kind: Kind,
) -> Result<State, Stuck>
    ensures { Does (machine.after_outer parts.nothing_listed level frames kind) result }
{
    after_outer(nothing_listed(alloc)?, level, frames, kind)
}

/// Where the parameters of a function may begin.
pub fn after_function(
    alloc: Global,
    level: Level,
    frames: Stack<Frame>,
    kind: Kind,
) -> Result<State, Stuck>
    ensures { Does (machine.after_function level frames kind) result }
{
    if is_mark(&kind, Mark::Open) {
        let owner = Owner::Function(level);
        Ok(at(Focus::Parameters { owner }, frames))
    } else {
        after_nothing(alloc, level, frames, kind)
    }
}

/// Behind the question mark of a block.
pub fn after_block_question(
    outer: Listed,
    level: Level,
    frames: Stack<Frame>,
    kind: Kind,
) -> Result<State, Stuck>
    ensures { Does (machine.after_block_question outer level frames kind) result }
{
    match kind {
        Kind::Mark(Mark::OpenBrace) => Ok(at(
            Focus::Block {
                needed: false,
                outer,
                level,
            },
            frames,
        )),
        kind => refuse((outer, level, frames, kind)),
    }
}

/// Behind the brace of a block.
pub fn after_block(
    alloc: Global,
    needed: bool,
    outer: Listed,
    level: Level,
    frames: Stack<Frame>,
    kind: Kind,
) -> Result<State, Stuck>
    ensures { Does (machine.after_block needed outer level frames kind) result }
{
    match kind {
        Kind::Mark(Mark::Open) => {
            let owner = Owner::Block {
                needed,
                outer,
                level,
            };
            Ok(at(Focus::Parameters { owner }, frames))
        }
        kind => {
            let inner = nothing_listed(alloc)?;
            after_inner(alloc, needed, inner, outer, level, frames, kind)
        }
    }
}
