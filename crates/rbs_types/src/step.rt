//! A reader of types that takes one token at a time, without limits.

ghost use Rattle.std.specs.Prelude.{◌≡◌, None, Ok, IfOk};
ghost use Rattle.rbs_terminals.specs.declared.token.Spot.{Spot};
ghost use Rattle.rbs_types.specs.Machine as machine;
ghost use Rattle.rbs_types.specs.Does.{Does, IsInHead};

use crate::begins::{after_paren, after_tuple, wants};
use crate::behind::{after_opt, after_simple};
use crate::functions::{
    after_block, after_block_question, after_function, after_headed, after_listed,
};
use crate::keys::{after_key_name, after_key_question, after_record, key_begins};
use crate::parameters::{
    after_key_rest_named, after_parameter_key, after_parameter_named, after_parameter_question,
    after_parameter_word, after_parameters, parameter_begins,
};
use crate::parts::{all_ended, joined_inter, joined_union};
use crate::refused::{Stuck, refuse};
use crate::stack::Stack;
use crate::state::{Focus, Frame, Level, Members, State};
use crate::tall::{Tall, Talls};
use crate::type_names::{
    after_bare, after_scope, after_singleton, after_singleton_open, after_singleton_scope,
    after_singleton_upper, after_upper,
};
use plain_data::{Boxed, NoMemory};
use rbs_terminals::{Kind, Token};
use std::alloc::Global;

/// What a token does among the parameters of a function, or where its block begins.
fn next_in_head(
    alloc: Global,
    focus: Focus,
    frames: Stack<Frame>,
    kind: Kind,
) -> Result<State, Stuck>
    ensures { (spot : Spot) → IsInHead focus → Does (machine.step focus frames kind spot) result }
{
    match focus {
        Focus::Parameters { owner } => after_parameters(alloc, owner, frames, kind),
        Focus::Parameter { before, owner } => parameter_begins(alloc, before, owner, frames, kind),
        Focus::ParameterQuestion { before, owner } => {
            after_parameter_question(alloc, before, owner, frames, kind)
        }
        Focus::ParameterWord {
            before,
            needed,
            word,
            opening,
            owner,
        } => after_parameter_word(alloc, before, needed, word, opening, owner, frames, kind),
        Focus::ParameterKey {
            before,
            needed,
            key,
            owner,
        } => after_parameter_key(alloc, before, needed, key, owner, frames, kind),
        Focus::ParameterNamed { parameters, owner } => {
            after_parameter_named(parameters, owner, frames, kind)
        }
        Focus::KeyRestNamed { listed, owner } => after_key_rest_named(listed, owner, frames, kind),
        Focus::BlockQuestion { outer, level } => after_block_question(outer, level, frames, kind),
        Focus::Block {
            needed,
            outer,
            level,
        } => after_block(alloc, needed, outer, level, frames, kind),
        focus => refuse((focus, frames, kind)),
    }
}

/// Takes the next token.
///
/// # Errors
///
/// `Syntax` where the token continues no text, and `NoMemory` where there is none for the state behind it.
pub fn next(alloc: Global, state: State, token: Token) -> Result<State, Stuck>
    ensures { Does (machine.next state token) result }
{
    let State { frames, focus } = state;
    let Token { kind, spot } = token;
    match focus {
        Focus::Type { level } => wants(alloc, level, frames, kind),
        Focus::Scope { name, level } => after_scope(name, level, frames, kind),
        Focus::Upper { name, level } => after_upper(alloc, name, level, frames, kind, spot),
        Focus::Bare { name, level } => after_bare(alloc, name, level, frames, kind),
        Focus::Singleton { level } => after_singleton(level, frames, kind),
        Focus::SingletonOpen { level } => after_singleton_open(alloc, level, frames, kind),
        Focus::SingletonScope { name, level } => after_singleton_scope(name, level, frames, kind),
        Focus::SingletonUpper { name, level } => {
            after_singleton_upper(name, level, frames, kind, spot)
        }
        Focus::Paren { level } => after_paren(alloc, level, frames, kind),
        Focus::Tuple { level } => after_tuple(alloc, level, frames, kind),
        Focus::Record { level } => after_record(alloc, level, frames, kind),
        Focus::Key { done, level } => key_begins(alloc, done, level, frames, kind),
        Focus::KeyQuestion { done, level } => after_key_question(alloc, done, level, frames, kind),
        Focus::KeyName {
            done,
            key,
            needed,
            level,
        } => after_key_name(alloc, done, key, needed, level, frames, kind),
        Focus::Simple { ty, level } => after_simple(alloc, ty, level, frames, kind),
        Focus::Optional { ty, members } => after_opt(alloc, ty, members, frames, kind),
        Focus::Function { level } => after_function(alloc, level, frames, kind),
        Focus::Listed { listed, owner } => after_listed(alloc, listed, owner, frames, kind),
        Focus::Headed { head, level } => after_headed(head, level, frames, kind),
        focus => next_in_head(alloc, focus, frames, kind),
    }
}

/// Takes the next token, as [`next`] does, where the state is in memory of its own.
///
/// # Errors
///
/// As [`next`].
pub fn advance(alloc: Global, state: Boxed<State>, token: Token) -> Result<Boxed<State>, Stuck>
    ensures { Does (machine.next state token) result }
{
    let state = next(alloc, state.into_inner(), token)?;
    Ok(Boxed::new(alloc, state)?)
}

/// The type, if no bracket is open.
fn end_type(ty: Tall, frames: Stack<Frame>) -> Option<Tall>
    ensures { result ≡ machine.end_type ty frames }
{
    if frames.is_empty() { Some(ty) } else { None }
}

/// The whole type behind a type that no question mark may follow.
fn end_opt(ty: Tall, members: Members, frames: Stack<Frame>) -> Result<Option<Tall>, NoMemory>
    ensures { IfOk result (λ whole. whole ≡ machine.end_opt ty members frames) }
{
    match members {
        Members::Operands { unions, inters } => {
            let inter = joined_inter(inters, ty)?;
            let union = joined_union(unions, inter)?;
            Ok(end_type(union, frames))
        }
        Members::Result | Members::Closed => Ok(end_type(ty, frames)),
    }
}

/// The whole type behind a type that a question mark may follow.
fn end_simple(
    alloc: Global,
    ty: Tall,
    level: Level,
    frames: Stack<Frame>,
) -> Result<Option<Tall>, NoMemory>
    ensures { IfOk result (λ whole. whole ≡ machine.end_simple ty level frames) }
{
    let Level { members, heads } = level;
    let ty = all_ended(alloc, heads, ty)?;
    end_opt(ty, members, frames)
}

/// No type ends here: what was read is dropped.
fn unfinished<T: Drop>(_read: T) -> Result<Option<Tall>, NoMemory>
    ensures { result ≡ Ok None }
{
    Ok(None)
}

/// The type, if the text may end here.
pub fn finish(alloc: Global, state: State) -> Result<Option<Tall>, NoMemory>
    ensures { IfOk result (λ whole. whole ≡ machine.final state) }
{
    let State { frames, focus } = state;
    match focus {
        Focus::Upper { name, level } | Focus::Bare { name, level } => {
            let ty = Tall::name(name, Talls::new(alloc));
            end_simple(alloc, ty, level, frames)
        }
        Focus::Simple { ty, level } => end_simple(alloc, ty, level, frames),
        Focus::Optional { ty, members } => end_opt(ty, members, frames),
        focus => unfinished((focus, frames)),
    }
}
