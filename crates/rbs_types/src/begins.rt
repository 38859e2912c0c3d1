//! Where a type must begin.

ghost use Rattle.std.specs.Prelude.{◌≡◌, ◌∷◌, Some};
ghost use Rattle.rbs_terminals.specs.Keywords as words;
ghost use Rattle.rbs_types.specs.declared.state.Focus.TheVariants as focus;
ghost use Rattle.rbs_types.specs.Machine as machine;
ghost use Rattle.rbs_types.specs.Does.{Does};

use crate::parts::{empty_level, grown, no_name, root};
use crate::refused::{Stuck, refuse};
use crate::stack::Stack;
use crate::state::{Focus, Frame, Level, State};
use crate::tall::{Tall, Talls};
use rbs_terminals::{Keyword, Kind, Mark, base_of, is_mark};
use std::alloc::Global;

/// The state with this directly before the place.
pub fn at(focus: Focus, frames: Stack<Frame>) -> State
    ensures { machine.at focus frames ≡ Some result }
{
    State { frames, focus }
}

fn wants_mark(alloc: Global, level: Level, frames: Stack<Frame>, mark: Mark) -> Result<State, Stuck>
    ensures { Does (machine.wants_mark level frames mark) result }
{
    match mark {
        Mark::Open => Ok(at(Focus::Paren { level }, frames)),
        Mark::OpenSquare => Ok(at(Focus::Tuple { level }, frames)),
        Mark::OpenBrace => Ok(at(Focus::Record { level }, frames)),
        Mark::Caret => Ok(at(Focus::Function { level }, frames)),
        Mark::Scope => {
            let name = root(alloc);
            Ok(at(Focus::Scope { name, level }, frames))
        }
        _ => refuse((level, frames)),
    }
}

fn wants_singleton(level: Level, frames: Stack<Frame>, keyword: Keyword) -> Result<State, Stuck>
    ensures { Does (machine.wants_singleton level frames keyword) result }
{
    match keyword {
        Keyword::Singleton => Ok(at(Focus::Singleton { level }, frames)),
        _ => refuse((level, frames)),
    }
}

fn wants_keyword(level: Level, frames: Stack<Frame>, keyword: Keyword) -> Result<State, Stuck>
    ensures { Does (machine.wants_keyword level frames keyword (words.base_of keyword)) result }
{
    match base_of(keyword) {
        Some(base) => {
            let ty = Tall::base(base);
            Ok(at(Focus::Simple { ty, level }, frames))
        }
        None => wants_singleton(level, frames, keyword),
    }
}

/// Where a type must begin.
pub fn wants(alloc: Global, level: Level, frames: Stack<Frame>, kind: Kind) -> Result<State, Stuck>
    ensures { Does (machine.wants level frames kind) result }
{
    match kind {
        Kind::Mark(mark) => wants_mark(alloc, level, frames, mark),
        Kind::Keyword(keyword) => wants_keyword(level, frames, keyword),
        Kind::Lower(word) | Kind::Interface(word) => {
            let name = grown(no_name(alloc), word)?;
            Ok(at(Focus::Bare { name, level }, frames))
        }
        Kind::Upper(word) => {
            let name = grown(no_name(alloc), word)?;
            Ok(at(Focus::Upper { name, level }, frames))
        }
        Kind::Integer(value) => {
            let ty = Tall::integer(value);
            Ok(at(Focus::Simple { ty, level }, frames))
        }
        Kind::PastInteger => {
            let ty = Tall::integer(0);
            Ok(at(Focus::Simple { ty, level }, frames))
        }
        Kind::Text(value) => {
            let ty = Tall::text(value);
            Ok(at(Focus::Simple { ty, level }, frames))
        }
        Kind::Symbol(name) => {
            let ty = Tall::symbol(name);
            Ok(at(Focus::Simple { ty, level }, frames))
        }
        kind => refuse((level, frames, kind)),
    }
}

/// Where a type must begin within a further bracket.
pub fn within(alloc: Global, frame: Frame, frames: Stack<Frame>) -> Result<State, Stuck>
    ensures { Does (machine.at (focus.Type machine.ground) (frame ∷ frames)) result }
{
    let frames = frames.with(frame)?;
    let level = empty_level(alloc);
    Ok(at(Focus::Type { level }, frames))
}

/// What a token does where a type must begin within a further bracket.
pub fn wants_within(
    alloc: Global,
    frame: Frame,
    frames: Stack<Frame>,
    kind: Kind,
) -> Result<State, Stuck>
    ensures { Does (machine.wants machine.ground (frame ∷ frames) kind) result }
{
    let frames = frames.with(frame)?;
    wants(alloc, empty_level(alloc), frames, kind)
}

/// Behind the bracket of a tuple, which may close at once.
pub fn after_tuple(
    alloc: Global,
    level: Level,
    frames: Stack<Frame>,
    kind: Kind,
) -> Result<State, Stuck>
    ensures { Does (machine.after_tuple level frames kind) result }
{
    let done = Talls::new(alloc);
    if is_mark(&kind, Mark::CloseSquare) {
        let ty = Tall::tuple(done);
        Ok(at(Focus::Simple { ty, level }, frames))
    } else {
        wants_within(alloc, Frame::Tuple { done, outer: level }, frames, kind)
    }
}

/// Behind the parenthesis of a type.
pub fn after_paren(
    alloc: Global,
    level: Level,
    frames: Stack<Frame>,
    kind: Kind,
) -> Result<State, Stuck>
    ensures { Does (machine.after_paren level frames kind) result }
{
    wants_within(alloc, Frame::Paren { outer: level }, frames, kind)
}
