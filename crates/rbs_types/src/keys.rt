//! The keys of a record.

ghost use Rattle.std.specs.Prelude.{false};
ghost use Rattle.rbs_terminals.specs.Kinds as kinds;
ghost use Rattle.rbs_types.specs.Machine as machine;
ghost use Rattle.rbs_types.specs.Does.{Does};

use crate::begins::{at, within};
use crate::refused::{Stuck, refuse};
use crate::stack::Stack;
use crate::state::{Focus, Frame, Level, State};
use crate::tall::{Keys, Tall};
use plain_data::Word;
use rbs_terminals::{Kind, Mark, lower_of};
use std::alloc::Global;

/// The name of a key, which no key before it has.
pub fn key_named(
    done: Keys,
    needed: bool,
    level: Level,
    frames: Stack<Frame>,
    name: Option<Word>,
) -> Result<State, Stuck>
    ensures { Does (machine.key_named done needed level frames name) result }
{
    match name {
        None => refuse((done, level, frames)),
        Some(key) => {
            if done.is_new(&key) {
                Ok(at(
                    Focus::KeyName {
                        done,
                        key,
                        needed,
                        level,
                    },
                    frames,
                ))
            } else {
                refuse((done, key, level, frames))
            }
        }
    }
}

/// Where a key must begin.
pub fn key_begins(
    alloc: Global,
    done: Keys,
    level: Level,
    frames: Stack<Frame>,
    kind: Kind,
) -> Result<State, Stuck>
    ensures { Does (machine.key_begins done level frames kind) result }
{
    match kind {
        Kind::Mark(Mark::Question) => Ok(at(Focus::KeyQuestion { done, level }, frames)),
        kind => key_named(done, true, level, frames, lower_of(alloc, kind)?),
    }
}

/// Behind the question mark of a key.
pub fn after_key_question(
    alloc: Global,
    done: Keys,
    level: Level,
    frames: Stack<Frame>,
    kind: Kind,
) -> Result<State, Stuck>
    ensures { Does (machine.key_named done false level frames (kinds.lower_of kind)) result }
{
    key_named(done, false, level, frames, lower_of(alloc, kind)?)
}

/// Behind the name of a key.
pub fn after_key_name(
    alloc: Global,
    done: Keys,
    key: Word,
    needed: bool,
    level: Level,
    frames: Stack<Frame>,
    kind: Kind,
) -> Result<State, Stuck>
    ensures { Does (machine.after_key_name done key needed level frames kind) result }
{
    match kind {
        Kind::Mark(Mark::Colon) => within(
            alloc,
            Frame::Record {
                done,
                key,
                needed,
                outer: level,
            },
            frames,
        ),
        kind => refuse((done, key, level, frames, kind)),
    }
}

/// Behind the brace of a record.
pub fn after_record(
    alloc: Global,
    level: Level,
    frames: Stack<Frame>,
    kind: Kind,
) -> Result<State, Stuck>
    ensures { Does (machine.after_record level frames kind) result }
{
    let none = Keys::new(alloc);
    match kind {
        Kind::Mark(Mark::CloseBrace) => {
            let ty = Tall::record(none);
            Ok(at(Focus::Simple { ty, level }, frames))
        }
        kind => key_begins(alloc, none, level, frames, kind),
    }
}
