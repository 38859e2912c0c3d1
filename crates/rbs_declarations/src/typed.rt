//! Inside of types, and behind one.

ghost use Rattle.std.specs.Prelude.{◌≡◌, ℕ, List, [], Option, Some};
ghost use Rattle.sig_model.specs.PlainTy.{PlainTy};
ghost use Rattle.sig_model.specs.PlainMember.{PlainMethod, PlainParam};
ghost use Rattle.rbs_types.specs.declared.state.State.{State as TypeState};
ghost use Rattle.rbs_types.specs.Does as inside;
ghost use Rattle.rbs_types.specs.Machine as types;
ghost use Rattle.rbs_declarations.specs.Machine as machine;
ghost use Rattle.rbs_declarations.specs.Does.{Does};
ghost use Rattle.rbs_declarations.specs.Groups.{IsFromParent, IsFromAttribute};

use crate::around::{Around, at};
use crate::begins::then_part;
use crate::built::{and_overload, attribute, constant, method, mixin, type_alias, variable};
use crate::headings::{Headed, after_heading, after_one_more, with_parent, with_selves};
use crate::params::{after_param, and_param};
use crate::plain::{Methods, Params};
use crate::refused::{Stuck, refuse};
use crate::state::{Focus, Owner, Param, Purpose, Signature, State};
use crate::wholes::{declared, membered};
use plain_data::Boxed;
use rbs_terminals::{Kind, Mark, Token, is_mark};
use rbs_types::step::{advance, finish};
use rbs_types::{Tall, is_ended, start_function};
use std::alloc::Global;

/// A token went to a type.
fn typed(
    purpose: Boxed<Purpose>,
    around: Around,
    stepped: Result<Boxed<rbs_types::State>, rbs_types::Stuck>,
) -> Result<State, Stuck>
    ensures { (inner : Option TypeState) → inside.Does inner stepped
        → Does (machine.typed around.file purpose around.decls around.frames inner) result }
{
    match stepped {
        Ok(inner) => Ok(at(Focus::Typed { purpose, inner }, around)),
        Err(rbs_types::Stuck::Syntax) => Err(Stuck::Syntax),
        Err(rbs_types::Stuck::NoMemory) => Err(Stuck::NoMemory),
    }
}

/// A token went to the first type for this purpose.
fn newly_typed(
    alloc: Global,
    purpose: Purpose,
    around: Around,
    stepped: Result<Boxed<rbs_types::State>, rbs_types::Stuck>,
) -> Result<State, Stuck>
    ensures { (inner : Option TypeState) → inside.Does inner stepped
        → Does (machine.typed around.file purpose around.decls around.frames inner) result }
{
    let purpose = Boxed::new(alloc, purpose)?;
    typed(purpose, around, stepped)
}

/// What the first token of the parameters, the block and the result of a method does inside of these.
fn function_entered(
    alloc: Global,
    token: Token,
) -> Result<Boxed<rbs_types::State>, rbs_types::Stuck>
    ensures { inside.Does (types.next types.start_function token) result }
{
    let state = Boxed::new(alloc, start_function(alloc))?;
    advance(alloc, state, token)
}

/// Where the parameters, the block and the result of a method must begin.
fn function_begins(
    alloc: Global,
    signature: Signature,
    done: Methods,
    params: Params,
    around: Around,
    token: Token,
) -> Result<State, Stuck>
    ensures { Does (machine.function_begins around.file signature done params around.decls around.frames token.kind token.spot) result }
{
    let stepped = function_entered(alloc, token);
    let purpose = Purpose::Overload {
        signature,
        done,
        params,
    };
    newly_typed(alloc, purpose, around, stepped)
}

/// Where an overload without type parameters must begin.
fn plain_overload(
    alloc: Global,
    signature: Signature,
    done: Methods,
    around: Around,
    token: Token,
) -> Result<State, Stuck>
    ensures { Does (machine.function_begins around.file signature done [] around.decls around.frames token.kind token.spot) result }
{
    let params = Params::new(alloc);
    function_begins(alloc, signature, done, params, around, token)
}

/// Where an overload must begin.
pub fn after_overload(
    alloc: Global,
    signature: Signature,
    done: Methods,
    around: Around,
    token: Token,
) -> Result<State, Stuck>
    ensures { Does (machine.after_overload around.file signature done around.decls around.frames token.kind token.spot) result }
{
    if is_mark(&token.kind, Mark::OpenSquare) {
        let owner = Boxed::new(alloc, Owner::Overload { signature, done })?;
        let done = Params::new(alloc);
        Ok(at(Focus::Param { owner, done }, around))
    } else {
        plain_overload(alloc, signature, done, around, token)
    }
}

/// Behind the bracket that closes type parameters.
pub fn after_parameterized(
    alloc: Global,
    owner: Boxed<Owner>,
    params: Params,
    around: Around,
    token: Token,
) -> Result<State, Stuck>
    ensures { Does (machine.after_parameterized around.file owner params around.decls around.frames token.kind token.spot) result }
{
    match owner.into_inner() {
        Owner::Heading { begun, sort, name } => {
            let headed = Headed {
                begun,
                name,
                params,
            };
            after_heading(alloc, sort, headed, around, token)
        }
        Owner::Overload { signature, done } => {
            function_begins(alloc, signature, done, params, around, token)
        }
    }
}

/// The state behind a method that ends at `end`, if its overloads are functions.
fn with_method(
    signature: Signature,
    overloads: Option<Methods>,
    end: u32,
    around: Around,
) -> Result<State, Stuck>
    ensures { Does (machine.with_method around.file signature overloads end around.decls around.frames) result }
{
    match overloads {
        Some(overloads) => {
            let Signature {
                begun,
                vis,
                single,
                name,
            } = signature;
            let member = method(vis, single, name, overloads);
            Ok(membered(begun, end, member, around)?)
        }
        None => Err(Stuck::Syntax),
    }
}

/// The state behind a type of a member, which ends at `end`.
fn settled_member(purpose: Purpose, ty: Tall, end: u32, around: Around) -> Result<State, Stuck>
    ensures { IsFromAttribute purpose → Does (machine.settled_type around.file purpose ty end around.decls around.frames) result }
{
    match purpose {
        Purpose::Attribute {
            begun,
            vis,
            kind,
            name,
        } => {
            let member = attribute(vis, kind, name, ty);
            Ok(membered(begun, end, member, around)?)
        }
        Purpose::Variable {
            begun,
            single,
            name,
        } => {
            let member = variable(single, name, ty);
            Ok(membered(begun, end, member, around)?)
        }
        Purpose::Overload {
            signature,
            done,
            params,
        } => with_method(signature, and_overload(done, params, ty)?, end, around),
        Purpose::Mixin { begun, kind } => Ok(membered(begun, end, mixin(kind, ty), around)?),
        purpose => refuse((purpose, ty, around)),
    }
}

/// The state behind a superclass or a self type, which is the heading's last, or behind a type of a member.
fn settled_heading(
    alloc: Global,
    purpose: Purpose,
    ty: Tall,
    end: u32,
    around: Around,
) -> Result<State, Stuck>
    ensures { IsFromParent purpose → Does (machine.settled_type around.file purpose ty end around.decls around.frames) result }
{
    match purpose {
        Purpose::Parent {
            begun,
            name,
            params,
        } => {
            let headed = Headed {
                begun,
                name,
                params,
            };
            Ok(with_parent(alloc, headed, ty, around)?)
        }
        Purpose::SelfType {
            begun,
            name,
            params,
            selves,
        } => {
            let headed = Headed {
                begun,
                name,
                params,
            };
            Ok(with_selves(alloc, headed, selves.with(ty)?, around)?)
        }
        purpose => settled_member(purpose, ty, end, around),
    }
}

/// The state behind a whole type that ends at `end`, where it isn't for a type parameter.
fn settled_type(
    alloc: Global,
    purpose: Purpose,
    ty: Tall,
    end: u32,
    around: Around,
) -> Result<State, Stuck>
    ensures { Does (machine.settled_type around.file purpose ty end around.decls around.frames) result }
{
    match purpose {
        Purpose::Alias {
            begun,
            name,
            params,
        } => {
            let body = type_alias(name, params, ty);
            Ok(declared(begun, end, body, around)?)
        }
        Purpose::Constant { begun, name } => Ok(declared(begun, end, constant(name, ty), around)?),
        purpose => settled_heading(alloc, purpose, ty, end, around),
    }
}

/// Where a further overload must begin.
fn next_overload(
    signature: Signature,
    overloads: Option<Methods>,
    around: Around,
) -> Result<State, Stuck>
    ensures { Does (machine.next_overload around.file signature overloads around.decls around.frames) result }
{
    match overloads {
        Some(done) => Ok(at(Focus::Overload { signature, done }, around)),
        None => Err(Stuck::Syntax),
    }
}

/// What a token does behind a method with these overloads.
fn then_method(
    alloc: Global,
    signature: Signature,
    overloads: Option<Methods>,
    around: Around,
    token: Token,
) -> Result<State, Stuck>
    ensures { Does (machine.then_part around.file (machine.with_method around.file signature overloads token.spot.before around.decls around.frames) token.kind token.spot) result }
{
    let file = around.file;
    let whole = with_method(signature, overloads, token.spot.before, around)?;
    then_part(alloc, file, whole, token)
}

/// Behind these overloads, the last of which is whole.
fn after_overloads(
    alloc: Global,
    signature: Signature,
    overloads: Option<Methods>,
    around: Around,
    token: Token,
) -> Result<State, Stuck>
    ensures { (done : List PlainMethod) → (params : List PlainParam) → (ty : PlainTy) → overloads ≡ machine.and_overload done params ty
        → Does (machine.after_function around.file signature done params ty around.decls around.frames token.kind token.spot) result }
{
    if is_mark(&token.kind, Mark::Bar) {
        next_overload(signature, overloads, around)
    } else {
        then_method(alloc, signature, overloads, around, token)
    }
}

/// Behind an overload.
fn after_function(
    alloc: Global,
    signature: Signature,
    done: Methods,
    params: Params,
    ty: Tall,
    around: Around,
    token: Token,
) -> Result<State, Stuck>
    ensures { Does (machine.after_function around.file signature done params ty around.decls around.frames token.kind token.spot) result }
{
    let overloads = and_overload(done, params, ty)?;
    after_overloads(alloc, signature, overloads, around, token)
}

/// What a token does behind a whole type that is the last of its phrase.
fn then_settled(
    alloc: Global,
    purpose: Purpose,
    ty: Tall,
    around: Around,
    token: Token,
) -> Result<State, Stuck>
    ensures { Does (machine.then_part around.file (machine.settled_type around.file purpose ty token.spot.before around.decls around.frames) token.kind token.spot) result }
{
    let file = around.file;
    let whole = settled_type(alloc, purpose, ty, token.spot.before, around)?;
    then_part(alloc, file, whole, token)
}

/// Behind the bound of a type parameter.
fn after_bound(
    owner: Boxed<Owner>,
    done: Params,
    param: Param,
    ty: Tall,
    around: Around,
    kind: Kind,
) -> Result<State, Stuck>
    ensures { Does (machine.after_param around.file owner (machine.and_param done param (Some ty)) around.decls around.frames kind) result }
{
    let params = and_param(done, param, Some(ty))?;
    after_param(owner, params, around, kind)
}

/// Behind a whole type.
fn after_whole(
    alloc: Global,
    purpose: Purpose,
    ty: Tall,
    around: Around,
    token: Token,
) -> Result<State, Stuck>
    ensures { Does (machine.after_whole around.file purpose ty around.decls around.frames token.kind token.spot) result }
{
    match purpose {
        Purpose::Overload {
            signature,
            done,
            params,
        } => after_function(alloc, signature, done, params, ty, around, token),
        Purpose::SelfType {
            begun,
            name,
            params,
            selves,
        } => {
            let headed = Headed {
                begun,
                name,
                params,
            };
            after_one_more(alloc, headed, selves, ty, around, token)
        }
        Purpose::Bound { owner, done, param } => {
            after_bound(owner, done, param, ty, around, token.kind)
        }
        Purpose::Alias { .. }
        | Purpose::Constant { .. }
        | Purpose::Attribute { .. }
        | Purpose::Variable { .. }
        | Purpose::Parent { .. }
        | Purpose::Mixin { .. } => then_settled(alloc, purpose, ty, around, token),
    }
}

/// Behind what may be a whole type.
fn after_final(
    alloc: Global,
    purpose: Boxed<Purpose>,
    ty: Option<Tall>,
    around: Around,
    token: Token,
) -> Result<State, Stuck>
    ensures { Does (machine.after_final around.file purpose ty around.decls around.frames token.kind token.spot) result }
{
    match ty {
        Some(ty) => after_whole(alloc, purpose.into_inner(), ty, around, token),
        None => Err(Stuck::Syntax),
    }
}

/// What a token does that doesn't go on with a type.
fn behind_type(
    alloc: Global,
    purpose: Boxed<Purpose>,
    inner: Boxed<rbs_types::State>,
    around: Around,
    token: Token,
) -> Result<State, Stuck>
    ensures { Does (machine.after_final around.file purpose (types.final inner) around.decls around.frames token.kind token.spot) result }
{
    let ty = finish(alloc, inner.into_inner())?;
    after_final(alloc, purpose, ty, around, token)
}

/// What a token does that goes on with a type, or leads nowhere.
fn inside_type(
    alloc: Global,
    purpose: Boxed<Purpose>,
    inner: Boxed<rbs_types::State>,
    around: Around,
    token: Token,
) -> Result<State, Stuck>
    ensures { Does (machine.typed around.file purpose around.decls around.frames (types.next inner token)) result }
{
    let stepped = advance(alloc, inner, token);
    typed(purpose, around, stepped)
}

/// Inside of a type: a token goes to the type, and where it doesn't go on with that, behind the type.
pub fn typed_on(
    alloc: Global,
    purpose: Boxed<Purpose>,
    inner: Boxed<rbs_types::State>,
    around: Around,
    token: Token,
) -> Result<State, Stuck>
    ensures { Does (machine.typed_on around.file purpose inner (types.next inner token) around.decls around.frames token.kind token.spot) result }
{
    if is_ended(inner.get(), &token.kind, &token.spot) {
        behind_type(alloc, purpose, inner, around, token)
    } else {
        inside_type(alloc, purpose, inner, around, token)
    }
}

/// The state behind a type with which the text ends, if it is whole.
pub fn type_ended(
    alloc: Global,
    purpose: Boxed<Purpose>,
    inner: Boxed<rbs_types::State>,
    end: u32,
    around: Around,
) -> Result<State, Stuck>
    ensures { Does (machine.type_ended around.file purpose (types.final inner) end around.decls around.frames) result }
{
    match finish(alloc, inner.into_inner())? {
        Some(ty) => settled_type(alloc, purpose.into_inner(), ty, end, around),
        None => Err(Stuck::Syntax),
    }
}
