//! Behind a name, and within the parentheses of `singleton`.

ghost use Rattle.std.specs.Prelude.{◌≡◌};
ghost use Rattle.rbs_types.specs.Symbols.{scope_at};
ghost use Rattle.rbs_types.specs.Machine as machine;
ghost use Rattle.rbs_types.specs.Does.{Does};

use crate::begins::{at, within};
use crate::behind::after_simple;
use crate::parts::{grown, no_name, root};
use crate::refused::{Stuck, refuse};
use crate::stack::Stack;
use crate::state::{Focus, Frame, Level, State};
use crate::tall::{Tall, Talls};
use rbs_terminals::{Gap, Kind, Mark, Spot};
use sig_model::ty::TypeName;
use std::alloc::Global;

/// The token is a `::` on the line of the one before it.
pub fn is_scope(kind: &Kind, spot: &Spot) -> bool
    ensures { result ≡ scope_at kind.now spot.now }
{
    match kind {
        Kind::Mark(Mark::Scope) => match spot.gap {
            Gap::Line => false,
            Gap::Joined | Gap::Blank => true,
        },
        _ => false,
    }
}

/// Behind a name that is whole.
pub fn after_bare(
    alloc: Global,
    name: TypeName,
    level: Level,
    frames: Stack<Frame>,
    kind: Kind,
) -> Result<State, Stuck>
    ensures { Does (machine.after_bare name level frames kind) result }
{
    match kind {
        Kind::Mark(Mark::OpenSquare) => {
            let done = Talls::new(alloc);
            let outer = level;
            within(alloc, Frame::Arguments { name, done, outer }, frames)
        }
        kind => {
            let ty = Tall::name(name, Talls::new(alloc));
            after_simple(alloc, ty, level, frames, kind)
        }
    }
}

/// Behind a name that a `::` may follow.
pub fn after_upper(
    alloc: Global,
    name: TypeName,
    level: Level,
    frames: Stack<Frame>,
    kind: Kind,
    spot: Spot,
) -> Result<State, Stuck>
    ensures { Does (machine.after_upper name level frames kind spot) result }
{
    if is_scope(&kind, &spot) {
        Ok(at(Focus::Scope { name, level }, frames))
    } else {
        after_bare(alloc, name, level, frames, kind)
    }
}

/// Behind the `::` of a name.
pub fn after_scope(
    name: TypeName,
    level: Level,
    frames: Stack<Frame>,
    kind: Kind,
) -> Result<State, Stuck>
    ensures { Does (machine.after_scope name level frames kind) result }
{
    match kind {
        Kind::Upper(word) => {
            let name = grown(name, word)?;
            Ok(at(Focus::Upper { name, level }, frames))
        }
        Kind::Interface(word) | Kind::Lower(word) => {
            let name = grown(name, word)?;
            Ok(at(Focus::Bare { name, level }, frames))
        }
        kind => refuse((name, level, frames, kind)),
    }
}

/// Behind `singleton`.
pub fn after_singleton(level: Level, frames: Stack<Frame>, kind: Kind) -> Result<State, Stuck>
    ensures { Does (machine.after_singleton level frames kind) result }
{
    match kind {
        Kind::Mark(Mark::Open) => Ok(at(Focus::SingletonOpen { level }, frames)),
        kind => refuse((level, frames, kind)),
    }
}

/// Behind a `::` within the parentheses of `singleton`.
pub fn after_singleton_scope(
    name: TypeName,
    level: Level,
    frames: Stack<Frame>,
    kind: Kind,
) -> Result<State, Stuck>
    ensures { Does (machine.after_singleton_scope name level frames kind) result }
{
    match kind {
        Kind::Upper(word) => {
            let name = grown(name, word)?;
            Ok(at(Focus::SingletonUpper { name, level }, frames))
        }
        kind => refuse((name, level, frames, kind)),
    }
}

/// Behind `singleton(`.
pub fn after_singleton_open(
    alloc: Global,
    level: Level,
    frames: Stack<Frame>,
    kind: Kind,
) -> Result<State, Stuck>
    ensures { Does (machine.after_singleton_open level frames kind) result }
{
    match kind {
        Kind::Mark(Mark::Scope) => {
            let name = root(alloc);
            Ok(at(Focus::SingletonScope { name, level }, frames))
        }
        kind => after_singleton_scope(no_name(alloc), level, frames, kind),
    }
}

fn single_closed(
    name: TypeName,
    level: Level,
    frames: Stack<Frame>,
    kind: Kind,
) -> Result<State, Stuck>
    ensures { Does (machine.single_closed name level frames kind) result }
{
    match kind {
        Kind::Mark(Mark::Close) => {
            let ty = Tall::single(name);
            Ok(at(Focus::Simple { ty, level }, frames))
        }
        kind => refuse((name, level, frames, kind)),
    }
}

/// Behind a name within the parentheses of `singleton`.
pub fn after_singleton_upper(
    name: TypeName,
    level: Level,
    frames: Stack<Frame>,
    kind: Kind,
    spot: Spot,
) -> Result<State, Stuck>
    ensures { Does (machine.after_singleton_upper name level frames kind spot) result }
{
    if is_scope(&kind, &spot) {
        Ok(at(Focus::SingletonScope { name, level }, frames))
    } else {
        single_closed(name, level, frames, kind)
    }
}
