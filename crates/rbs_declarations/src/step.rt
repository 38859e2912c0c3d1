//! A reader of declarations that takes one token at a time, without limits.

ghost use Rattle.std.specs.Prelude.{◌≡◌, ℕ, Option, None, Ok, IfOk};
ghost use Rattle.rbs_declarations.specs.declared.state.State.{State};
ghost use Rattle.rbs_types.specs.Machine as types;
ghost use Rattle.rbs_declarations.specs.Machine as machine;
ghost use Rattle.rbs_declarations.specs.Does.{Does};
ghost use Rattle.rbs_declarations.specs.Groups.{IsFromHeading, IsFromParam, IsFromBound, IsFromMethod, IsFromNewName, IsFromOldName, IsOther};

use crate::aliases::{
    after_alias, after_new, after_new_equals, after_new_equals_equals, after_new_word, new_begins,
    new_operator_ended, old_ending, old_operator_ended,
};
use crate::around::Around;
use crate::begins::{begins, part_begins};
use crate::headings::{Headed, after_name, after_self_name, in_name, in_parent, in_self};
use crate::methods::{
    after_def, after_def_self, after_method_name, after_method_word, method_start, operator_ended,
};
use crate::other_members::{
    after_attribute, after_attribute_name, after_mixin_name, after_self_dot, after_self_word,
    after_variable, after_vis, in_mixin,
};
use crate::params::{
    after_bound_name, after_bound_singleton, after_param, after_param_name, after_unchecked,
    in_bound, in_bound_class, param_begins, param_named,
};
use crate::plain::{Decls, Params};
use crate::refused::{Stuck, refuse};
use crate::state::{Begun, Focus, Frame, Purpose, Signature, State};
use crate::typed::{after_overload, after_parameterized, type_ended, typed_on};
use plain_data::{Boxed, NoMemory};
use rbs_terminals::Token;
use rbs_types::Stack;
use sig_model::ty::TypeName;
use std::alloc::Global;

/// What a token does in an attribute, a mixin or an instance variable.
fn in_other(alloc: Global, focus: Focus, around: Around, token: Token) -> Result<State, Stuck>
    ensures { IsOther focus → Does (machine.step around.file focus around.decls around.frames token.kind token.spot) result }
{
    match focus {
        Focus::Attribute { begun, vis, kind } => {
            after_attribute(alloc, begun, vis, kind, around, token.kind)
        }
        Focus::AttributeName {
            begun,
            vis,
            kind,
            name,
        } => after_attribute_name(alloc, begun, vis, kind, name, around, token.kind),
        Focus::Mixin {
            begun,
            kind,
            naming,
        } => in_mixin(alloc, begun, kind, naming, around, token),
        Focus::MixinNamed { begun, kind, name } => {
            after_mixin_name(alloc, begun, kind, name, around, token)
        }
        Focus::SelfWord { begun } => after_self_word(begun, around, token.kind),
        Focus::SelfDot { begun } => after_self_dot(begun, around, token.kind),
        Focus::Variable {
            begun,
            single,
            name,
        } => after_variable(alloc, begun, single, name, around, token.kind),
        focus => refuse((focus, around, token)),
    }
}

/// What a token does in the old name of an alias of a method or behind it, or in a place that comes after these.
fn in_old_name(alloc: Global, focus: Focus, around: Around, token: Token) -> Result<State, Stuck>
    ensures { IsFromOldName focus → Does (machine.step around.file focus around.decls around.frames token.kind token.spot) result }
{
    match focus {
        Focus::OldWord {
            begun,
            new,
            word,
            capital,
        } => old_ending(alloc, begun, new, word, capital, around, token),
        Focus::OldOperator {
            begun,
            new,
            operator,
        } => old_operator_ended(alloc, begun, new, operator, around, token),
        Focus::OldName { begun, new, old } => after_alias(alloc, begun, new, old, around, token),
        focus => in_other(alloc, focus, around, token),
    }
}

/// What a token does in the new name of an alias of a method, or in a place that comes after these.
fn in_new_name(alloc: Global, focus: Focus, around: Around, token: Token) -> Result<State, Stuck>
    ensures { IsFromNewName focus → Does (machine.step around.file focus around.decls around.frames token.kind token.spot) result }
{
    match focus {
        Focus::Alias { begun } => new_begins(alloc, begun, around, token.kind),
        Focus::NewWord { begun, word } => after_new_word(alloc, begun, word, around, token),
        Focus::NewEquals { begun, word } => after_new_equals(alloc, begun, word, around, token),
        Focus::NewEqualsEquals { begun, word } => {
            after_new_equals_equals(alloc, begun, word, around, token)
        }
        Focus::NewOperator { begun, operator } => {
            new_operator_ended(alloc, begun, operator, around, token)
        }
        Focus::NewName { begun, new } => after_new(alloc, begun, new, around, token.kind),
        focus => in_old_name(alloc, focus, around, token),
    }
}

/// Behind a word as the name of a method.
fn after_method_token(
    alloc: Global,
    signature: Signature,
    around: Around,
    token: Token,
) -> Result<State, Stuck>
    ensures { Does (machine.after_method_word around.file signature around.decls around.frames token.kind token.spot) result }
{
    let Token { kind, spot } = token;
    after_method_word(alloc, signature, around, kind, &spot)
}

/// What a token does in a method, or in a place that comes after these.
fn in_method(alloc: Global, focus: Focus, around: Around, token: Token) -> Result<State, Stuck>
    ensures { IsFromMethod focus → Does (machine.step around.file focus around.decls around.frames token.kind token.spot) result }
{
    match focus {
        Focus::Def { begun, vis } => after_def(alloc, begun, vis, around, token.kind),
        Focus::DefSelf { begun, vis } => after_def_self(alloc, begun, vis, around, token),
        Focus::MethodStart { begun, vis, single } => {
            method_start(alloc, begun, vis, single, around, token.kind)
        }
        Focus::MethodWord { signature } => after_method_token(alloc, signature, around, token),
        Focus::MethodOperator {
            begun,
            vis,
            single,
            operator,
        } => operator_ended(alloc, begun, vis, single, operator, around, token),
        Focus::MethodName { signature } => {
            after_method_name(alloc, signature, around, token.kind)
        }
        Focus::Overload { signature, done } => {
            after_overload(alloc, signature, done, around, token)
        }
        focus => in_new_name(alloc, focus, around, token),
    }
}

/// What a token does in the bound of a type parameter, or in a place that comes after these.
fn in_bounds(alloc: Global, focus: Focus, around: Around, token: Token) -> Result<State, Stuck>
    ensures { IsFromBound focus → Does (machine.step around.file focus around.decls around.frames token.kind token.spot) result }
{
    match focus {
        Focus::Bound {
            owner,
            done,
            param,
            naming,
        } => in_bound(alloc, owner, done, param, naming, around, token),
        Focus::BoundNamed {
            owner,
            done,
            param,
            name,
        } => after_bound_name(alloc, owner, done, param, name, around, token.kind),
        Focus::BoundSingleton { owner, done, param } => {
            after_bound_singleton(alloc, owner, done, param, around, token.kind)
        }
        Focus::BoundClass {
            owner,
            done,
            param,
            naming,
        } => in_bound_class(alloc, owner, done, param, naming, around, token),
        focus => in_method(alloc, focus, around, token),
    }
}

/// What a token does among type parameters, or in a place that comes after these.
fn in_params(alloc: Global, focus: Focus, around: Around, token: Token) -> Result<State, Stuck>
    ensures { IsFromParam focus → Does (machine.step around.file focus around.decls around.frames token.kind token.spot) result }
{
    match focus {
        Focus::Param { owner, done } => param_begins(owner, done, around, token.kind),
        Focus::Unchecked { owner, done } => after_unchecked(owner, done, true, around, token.kind),
        Focus::Varied {
            owner,
            done,
            unchecked,
            variance,
        } => param_named(owner, done, unchecked, variance, around, token.kind),
        Focus::ParamName { owner, done, param } => {
            after_param_name(alloc, owner, done, param, around, token.kind)
        }
        Focus::Bounded { owner, params } => after_param(owner, params, around, token.kind),
        Focus::Parameterized { owner, params } => {
            after_parameterized(alloc, owner, params, around, token)
        }
        focus => in_bounds(alloc, focus, around, token),
    }
}

/// The name and the type parameters of a declaration that began.
fn headed(begun: Begun, name: TypeName, params: Params) -> Headed
    ensures { result ≡ record { begun = begun; name = name; params = params } }
{
    Headed {
        begun,
        name,
        params,
    }
}

/// What a token does in the heading of a declaration, or in a place that comes after these.
fn in_heading(alloc: Global, focus: Focus, around: Around, token: Token) -> Result<State, Stuck>
    ensures { IsFromHeading focus → Does (machine.step around.file focus around.decls around.frames token.kind token.spot) result }
{
    match focus {
        Focus::Name {
            begun,
            sort,
            naming,
        } => in_name(alloc, begun, sort, naming, around, token),
        Focus::Named { begun, sort, name } => after_name(alloc, begun, sort, name, around, token),
        Focus::Parent {
            begun,
            name,
            params,
            naming,
        } => in_parent(alloc, headed(begun, name, params), naming, around, token),
        Focus::SelfType {
            begun,
            name,
            params,
            selves,
            naming,
        } => {
            let headed = headed(begun, name, params);
            in_self(alloc, headed, selves, naming, around, token)
        }
        Focus::SelfNamed {
            begun,
            name,
            params,
            selves,
            self_name,
        } => {
            let headed = headed(begun, name, params);
            after_self_name(alloc, headed, selves, self_name, around, token)
        }
        focus => in_params(alloc, focus, around, token),
    }
}

/// Behind annotations.
fn after_notes(alloc: Global, begun: Begun, around: Around, token: Token) -> Result<State, Stuck>
    ensures { Does (machine.begins around.file begun.notes around.decls around.frames token.kind token.spot) result }
{
    let Begun { notes, .. } = begun;
    let Token { kind, spot } = token;
    begins(alloc, notes, around, kind, spot.start, spot.end)
}

/// What a token does.
fn step(alloc: Global, focus: Focus, around: Around, token: Token) -> Result<State, Stuck>
    ensures { Does (machine.step around.file focus around.decls around.frames token.kind token.spot) result }
{
    match focus {
        Focus::Parts => part_begins(alloc, around, token),
        Focus::Noted { begun } => after_notes(alloc, begun, around, token),
        Focus::Visible { begun, vis, end } => after_vis(alloc, begun, vis, end, around, token),
        Focus::Typed { purpose, inner } => typed_on(alloc, purpose, inner, around, token),
        focus => in_heading(alloc, focus, around, token),
    }
}

/// Takes the next token.
///
/// # Errors
///
/// `Syntax` where the token continues no text, and `NoMemory` where there is none for the state behind it.
pub fn next(alloc: Global, file: u32, state: State, token: Token) -> Result<State, Stuck>
    ensures { Does (machine.next file state token) result }
{
    let State {
        decls,
        frames,
        focus,
    } = state;
    let around = Around {
        file,
        decls,
        frames,
    };
    step(alloc, focus, around, token)
}

/// Takes the next token, as [`next`] does, where the state is in memory of its own.
///
/// # Errors
///
/// As [`next`].
pub fn advance(
    alloc: Global,
    file: u32,
    state: Boxed<State>,
    token: Token,
) -> Result<Boxed<State>, Stuck>
    ensures { Does (machine.next file state token) result }
{
    let state = next(alloc, file, state.into_inner(), token)?;
    Ok(Boxed::new(alloc, state)?)
}

/// The declarations, if no declaration is open.
fn only_decls(decls: Decls, frames: Stack<Frame>) -> Option<Decls>
    ensures { (file : ℕ) → result ≡ machine.only_decls file decls frames }
{
    if frames.is_empty() { Some(decls) } else { None }
}

/// The declarations of a state, if no declaration is open in it.
fn decls_of(state: State) -> Option<Decls>
    ensures { (file : ℕ) → result ≡ machine.only_decls file state.decls state.frames }
{
    let State {
        decls,
        frames,
        focus,
    } = state;
    // Named, and not left out by `..`: so the check of this function stays small.
    drop(focus);
    only_decls(decls, frames)
}

/// The declarations of the state that this is, if it is one and no declaration is open in it.
fn whole_file(whole: Result<State, Stuck>) -> Result<Option<Decls>, NoMemory>
    ensures { (file : ℕ) → (o : Option State) → Does o whole → IfOk result (λ decls. decls ≡ machine.whole_file file o) }
{
    match whole {
        Ok(state) => Ok(decls_of(state)),
        Err(Stuck::Syntax) => Ok(None),
        Err(Stuck::NoMemory) => Err(NoMemory),
    }
}

/// The declarations of a text that ends at `end` with a type, if it may.
fn finish_type(
    alloc: Global,
    purpose: Boxed<Purpose>,
    inner: Boxed<rbs_types::State>,
    end: u32,
    around: Around,
) -> Result<Option<Decls>, NoMemory>
    ensures { IfOk result (λ decls. decls ≡ machine.whole_file around.file (machine.type_ended around.file purpose (types.final inner) end around.decls around.frames)) }
{
    whole_file(type_ended(alloc, purpose, inner, end, around))
}

/// No text ends here: what was read is dropped.
fn unfinished<T: Drop>(_read: T) -> Result<Option<Decls>, NoMemory>
    ensures { result ≡ Ok None }
{
    Ok(None)
}

/// The declarations, if the text may end here. `end` is where its last token ends.
///
/// # Errors
///
/// `NoMemory` where there is none for the last declaration.
pub fn finish(alloc: Global, file: u32, end: u32, state: State) -> Result<Option<Decls>, NoMemory>
    ensures { IfOk result (λ decls. decls ≡ machine.final file end state) }
{
    let State {
        decls,
        frames,
        focus,
    } = state;
    match focus {
        Focus::Parts => Ok(only_decls(decls, frames)),
        Focus::Typed { purpose, inner } => {
            let around = Around {
                file,
                decls,
                frames,
            };
            finish_type(alloc, purpose, inner, end, around)
        }
        focus => unfinished((decls, frames, focus)),
    }
}
