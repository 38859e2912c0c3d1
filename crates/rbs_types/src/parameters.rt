//! The parameters of a function or of a block.

ghost use Rattle.std.specs.Prelude.{◌≡◌, None};
ghost use Rattle.rbs_terminals.specs.declared.token.Mark.TheVariants as mark;
ghost use Rattle.rbs_terminals.specs.declared.token.Kind.TheVariants as variants;
ghost use Rattle.rbs_terminals.specs.Keywords as words;
ghost use Rattle.rbs_terminals.specs.Kinds as kinds;
ghost use Rattle.rbs_types.specs.declared.state.Focus.TheVariants as focus;
ghost use Rattle.rbs_types.specs.Parts as parts;
ghost use Rattle.rbs_types.specs.Machine as machine;
ghost use Rattle.rbs_types.specs.Does.{Does};

use crate::begins::{at, wants_within, within};
use crate::behind::after_simple;
use crate::parts::{
    added, all_of, closed, empty_level, grown, no_name, no_parameters, nothing_listed,
    takes_optional, takes_positional,
};
use crate::refused::{Stuck, lack, refuse};
use crate::stack::Stack;
use crate::state::{Focus, Frame, Listed, Opening, Owner, Parameters, Slot, State};
use crate::tall::Tall;
use crate::type_names::{after_bare, after_singleton};
use plain_data::{Boxed, NoMemory, Word};
use rbs_terminals::{Keyword, Kind, Mark, base_of, is_mark, keyword_text, lower_of};
use std::alloc::Global;

/// What a positional parameter is: `needed` where no `?` stands before it.
fn slot_of(needed: bool) -> Slot
    ensures { result ≡ machine.slot_of needed }
{
    if needed {
        Slot::Positional
    } else {
        Slot::Optional
    }
}

/// The type that a keyword begins.
fn opening_of_keyword(keyword: Keyword) -> Option<Opening>
    ensures { result ≡ machine.opening_of_keyword keyword (words.base_of keyword) }
{
    match base_of(keyword) {
        Some(base) => Some(Opening::Base(base)),
        None => match keyword {
            Keyword::Singleton => Some(Opening::Singleton),
            _ => None,
        },
    }
}

/// A word that can be but the name of a keyword, which no keyword before it has.
fn keyword_begins(
    before: Boxed<Parameters>,
    needed: bool,
    key: Word,
    owner: Owner,
    frames: Stack<Frame>,
) -> Result<State, Stuck>
    ensures { Does (machine.keyword_begins before needed key owner frames) result }
{
    if before.get().keys.is_new(&key) {
        Ok(at(
            Focus::ParameterKey {
                before,
                needed,
                key,
                owner,
            },
            frames,
        ))
    } else {
        refuse((before, key, owner, frames))
    }
}

/// A word where a keyword may begin, and a positional parameter too if `takes`.
fn word_begins(
    before: Boxed<Parameters>,
    needed: bool,
    takes: bool,
    word: Word,
    opening: Option<Opening>,
    owner: Owner,
    frames: Stack<Frame>,
) -> Result<State, Stuck>
    ensures { Does (machine.word_begins before needed takes word opening owner frames) result }
{
    if !takes {
        return keyword_begins(before, needed, word, owner, frames);
    }
    match opening {
        Some(opening) => Ok(at(
            Focus::ParameterWord {
                before,
                needed,
                word,
                opening,
                owner,
            },
            frames,
        )),
        None => keyword_begins(before, needed, word, owner, frames),
    }
}

/// A token that is no word, where a positional parameter may begin if `takes`.
fn type_begins(
    alloc: Global,
    before: Boxed<Parameters>,
    needed: bool,
    takes: bool,
    owner: Owner,
    frames: Stack<Frame>,
    kind: Kind,
) -> Result<State, Stuck>
    ensures { Does (machine.argument_begins before needed takes None owner frames kind) result }
{
    if takes {
        let slot = slot_of(needed);
        let frame = Frame::Parameter {
            before,
            slot,
            owner,
        };
        wants_within(alloc, frame, frames, kind)
    } else {
        refuse((before, owner, frames, kind))
    }
}

/// Where a keyword may begin, and a positional parameter too if `takes`.
fn argument_begins(
    alloc: Global,
    before: Boxed<Parameters>,
    needed: bool,
    takes: bool,
    owner: Owner,
    frames: Stack<Frame>,
    kind: Kind,
) -> Result<State, Stuck>
    ensures { Does (machine.argument_begins before needed takes (kinds.lower_of kind) owner frames kind) result }
{
    match kind {
        Kind::Lower(word) => {
            let opening = Some(Opening::Alias);
            word_begins(before, needed, takes, word, opening, owner, frames)
        }
        Kind::Keyword(keyword) => {
            let word = Word::of(alloc, keyword_text(keyword))?;
            let opening = opening_of_keyword(keyword);
            word_begins(before, needed, takes, word, opening, owner, frames)
        }
        kind => type_begins(alloc, before, needed, takes, owner, frames, kind),
    }
}

/// Behind the question mark of a parameter.
pub fn after_parameter_question(
    alloc: Global,
    before: Boxed<Parameters>,
    owner: Owner,
    frames: Stack<Frame>,
    kind: Kind,
) -> Result<State, Stuck>
    ensures { Does (machine.after_parameter_question before owner frames kind) result }
{
    let takes = takes_optional(before.get());
    argument_begins(alloc, before, false, takes, owner, frames, kind)
}

/// Behind the star of the rest, which neither the rest, a trailing parameter nor a keyword stands before.
fn rest_begins(
    alloc: Global,
    before: Boxed<Parameters>,
    owner: Owner,
    frames: Stack<Frame>,
) -> Result<State, Stuck>
    ensures { Does (machine.parameter_begins before owner frames (variants.Mark mark.Star)) result }
{
    if takes_optional(before.get()) {
        let slot = Slot::Rest;
        let frame = Frame::Parameter {
            before,
            slot,
            owner,
        };
        within(alloc, frame, frames)
    } else {
        refuse((before, owner, frames))
    }
}

/// Where a parameter must begin.
pub fn parameter_begins(
    alloc: Global,
    before: Boxed<Parameters>,
    owner: Owner,
    frames: Stack<Frame>,
    kind: Kind,
) -> Result<State, Stuck>
    ensures { Does (machine.parameter_begins before owner frames kind) result }
{
    if is_mark(&kind, Mark::Question) {
        Ok(at(Focus::ParameterQuestion { before, owner }, frames))
    } else if is_mark(&kind, Mark::Star) {
        rest_begins(alloc, before, owner, frames)
    } else if is_mark(&kind, Mark::DoubleStar) {
        let slot = Slot::KeyRest;
        let frame = Frame::Parameter {
            before,
            slot,
            owner,
        };
        within(alloc, frame, frames)
    } else {
        let takes = takes_positional(before.get());
        argument_begins(alloc, before, true, takes, owner, frames, kind)
    }
}

/// Where the first parameter must begin.
fn first_begins(
    alloc: Global,
    owner: Owner,
    frames: Stack<Frame>,
    kind: Kind,
) -> Result<State, Stuck>
    ensures { Does (machine.parameter_begins parts.no_parameters owner frames kind) result }
{
    parameter_begins(alloc, no_parameters(alloc)?, owner, frames, kind)
}

/// Behind the parenthesis that closes no parameters.
fn after_none(alloc: Global, owner: Owner, frames: Stack<Frame>) -> Result<State, Stuck>
    ensures { Does (machine.at (focus.Listed parts.nothing_listed owner) frames) result }
{
    let listed = nothing_listed(alloc)?;
    Ok(at(Focus::Listed { listed, owner }, frames))
}

/// Behind the parenthesis of the parameters.
pub fn after_parameters(
    alloc: Global,
    owner: Owner,
    frames: Stack<Frame>,
    kind: Kind,
) -> Result<State, Stuck>
    ensures { Does (machine.after_parameters owner frames kind) result }
{
    if is_mark(&kind, Mark::Close) {
        after_none(alloc, owner, frames)
    } else {
        first_begins(alloc, owner, frames, kind)
    }
}

/// Behind the name of a keyword.
pub fn after_parameter_key(
    alloc: Global,
    before: Boxed<Parameters>,
    needed: bool,
    key: Word,
    owner: Owner,
    frames: Stack<Frame>,
    kind: Kind,
) -> Result<State, Stuck>
    ensures { Does (machine.after_parameter_key before needed key owner frames kind) result }
{
    match kind {
        Kind::Mark(Mark::Colon) => {
            let slot = Slot::Key { key, needed };
            let frame = Frame::Parameter {
                before,
                slot,
                owner,
            };
            within(alloc, frame, frames)
        }
        kind => refuse((before, key, owner, frames, kind)),
    }
}

/// Behind the name of a positional parameter, which is the last of these.
pub fn after_parameter_named(
    parameters: Boxed<Parameters>,
    owner: Owner,
    frames: Stack<Frame>,
    kind: Kind,
) -> Result<State, Stuck>
    ensures { Does (machine.after_parameter_named parameters owner frames kind) result }
{
    match kind {
        Kind::Mark(Mark::Comma) => Ok(at(
            Focus::Parameter {
                before: parameters,
                owner,
            },
            frames,
        )),
        Kind::Mark(Mark::Close) => {
            let listed = closed(parameters);
            Ok(at(Focus::Listed { listed, owner }, frames))
        }
        kind => refuse((parameters, owner, frames, kind)),
    }
}

/// Behind the name of the rest of the keywords.
pub fn after_key_rest_named(
    listed: Listed,
    owner: Owner,
    frames: Stack<Frame>,
    kind: Kind,
) -> Result<State, Stuck>
    ensures { Does (machine.after_key_rest_named listed owner frames kind) result }
{
    match kind {
        Kind::Mark(Mark::Close) => Ok(at(Focus::Listed { listed, owner }, frames)),
        kind => refuse((listed, owner, frames, kind)),
    }
}

/// The name behind the type of a parameter.
fn parameter_named(
    alloc: Global,
    ty: Tall,
    before: Boxed<Parameters>,
    slot: Slot,
    owner: Owner,
    frames: Stack<Frame>,
    name: Option<Word>,
) -> Result<State, Stuck>
    ensures { Does (machine.parameter_named ty before slot owner frames name) result }
{
    match name {
        None => refuse((ty, before, slot, owner, frames)),
        Some(name) => match slot {
            Slot::KeyRest => match all_of(alloc, before, Slot::KeyRest, ty, Some(name)) {
                Ok(listed) => Ok(at(Focus::KeyRestNamed { listed, owner }, frames)),
                Err(NoMemory) => lack((owner, frames)),
            },
            Slot::Key { key, .. } => refuse((ty, before, key, owner, frames, name)),
            slot => match added(alloc, before, slot, ty, Some(name)) {
                Ok(parameters) => Ok(at(Focus::ParameterNamed { parameters, owner }, frames)),
                Err(NoMemory) => lack((owner, frames)),
            },
        },
    }
}

/// A comma behind a parameter. The rest of the keywords is the last one.
fn comma_after(
    alloc: Global,
    ty: Tall,
    before: Boxed<Parameters>,
    slot: Slot,
    owner: Owner,
    frames: Stack<Frame>,
) -> Result<State, Stuck>
    ensures { Does (machine.comma_after ty before slot owner frames) result }
{
    match slot {
        Slot::KeyRest => refuse((ty, before, owner, frames)),
        slot => match added(alloc, before, slot, ty, None) {
            Ok(before) => Ok(at(Focus::Parameter { before, owner }, frames)),
            Err(NoMemory) => lack((owner, frames)),
        },
    }
}

/// Behind the type of a parameter.
pub fn in_parameter(
    alloc: Global,
    ty: Tall,
    before: Boxed<Parameters>,
    slot: Slot,
    owner: Owner,
    frames: Stack<Frame>,
    kind: Kind,
) -> Result<State, Stuck>
    ensures { Does (machine.in_parameter ty before slot owner frames kind) result }
{
    match kind {
        Kind::Mark(Mark::Comma) => comma_after(alloc, ty, before, slot, owner, frames),
        Kind::Mark(Mark::Close) => {
            match all_of(alloc, before, slot, ty, None) {
                Ok(listed) => Ok(at(Focus::Listed { listed, owner }, frames)),
                Err(NoMemory) => lack((owner, frames)),
            }
        }
        kind => match lower_of(alloc, kind) {
            Ok(name) => parameter_named(alloc, ty, before, slot, owner, frames, name),
            Err(NoMemory) => lack((ty, before, slot, owner, frames)),
        },
    }
}

/// Behind a word that begins a type.
fn after_opening(
    alloc: Global,
    opening: Opening,
    word: Word,
    frames: Stack<Frame>,
    kind: Kind,
) -> Result<State, Stuck>
    ensures { Does (machine.after_opening opening word frames kind) result }
{
    let level = empty_level(alloc);
    match opening {
        Opening::Alias => {
            let name = grown(no_name(alloc), word)?;
            after_bare(alloc, name, level, frames, kind)
        }
        Opening::Base(base) => after_simple(alloc, Tall::base(base), level, frames, kind),
        Opening::Singleton => after_singleton(level, frames, kind),
    }
}

/// Behind a word that may be the name of a keyword, or begin a type.
pub fn after_parameter_word(
    alloc: Global,
    before: Boxed<Parameters>,
    needed: bool,
    word: Word,
    opening: Opening,
    owner: Owner,
    frames: Stack<Frame>,
    kind: Kind,
) -> Result<State, Stuck>
    ensures { Does (machine.after_parameter_word before needed word opening owner frames kind) result }
{
    match kind {
        Kind::Mark(Mark::Colon) => {
            let slot = Slot::Key { key: word, needed };
            let frame = Frame::Parameter {
                before,
                slot,
                owner,
            };
            within(alloc, frame, frames)
        }
        kind => {
            let slot = slot_of(needed);
            let frames = frames.with(Frame::Parameter {
                before,
                slot,
                owner,
            })?;
            after_opening(alloc, opening, word, frames, kind)
        }
    }
}
