//! Type parameters.

ghost use Rattle.std.specs.Prelude.{◌≡◌, Some, IfOk};
ghost use Rattle.sig_model.specs.PlainTy as plain;
ghost use Rattle.rbs_types.specs.Grammar.{of_class, of_class_or_interface};
ghost use Rattle.rbs_terminals.specs.declared.token.Kind.{Kind};
ghost use Rattle.rbs_declarations.specs.Machine as machine;
ghost use Rattle.rbs_declarations.specs.Does.{Does, Goes};

use crate::around::{Around, at, typed_at};
use crate::built::option_of;
use crate::plain::Params;
use crate::refused::Stuck;
use crate::state::{Focus, Naming, Owner, Param, Purpose, State, Step};
use crate::type_names::{NameUse, Progress, first_on, naming_on, no_naming};
use crate::words::{is_keyword, variance_of};
use plain_data::{Boxed, NoMemory};
use rbs_terminals::{Keyword, Kind, Mark, Token, is_mark};
use rbs_types::{Tall, Talls, start_arguments};
use sig_model::decl::{TyParam, Variance};
use sig_model::ty::TypeName;
use std::alloc::Global;

/// Where the name of a parameter must come.
pub fn param_named(
    owner: Boxed<Owner>,
    done: Params,
    unchecked: bool,
    variance: Variance,
    around: Around,
    kind: Kind,
) -> Result<State, Stuck>
    ensures { Does (machine.param_named around.file owner done unchecked variance around.decls around.frames kind) result }
{
    match kind {
        Kind::Upper(name) => {
            if done.is_new(&name) {
                let param = Param {
                    name,
                    unchecked,
                    variance,
                };
                Ok(at(Focus::ParamName { owner, done, param }, around))
            } else {
                Err(Stuck::Syntax)
            }
        }
        _ => Err(Stuck::Syntax),
    }
}

/// Where a variance may come, or the name of a parameter.
pub fn after_unchecked(
    owner: Boxed<Owner>,
    done: Params,
    unchecked: bool,
    around: Around,
    kind: Kind,
) -> Result<State, Stuck>
    ensures { Does (machine.after_unchecked around.file owner done unchecked around.decls around.frames kind) result }
{
    match kind {
        Kind::Keyword(keyword) => match variance_of(keyword) {
            Some(variance) => Ok(at(
                Focus::Varied {
                    owner,
                    done,
                    unchecked,
                    variance,
                },
                around,
            )),
            None => Err(Stuck::Syntax),
        },
        kind => param_named(owner, done, unchecked, Variance::Fixed, around, kind),
    }
}

/// Where a parameter must begin.
pub fn param_begins(
    owner: Boxed<Owner>,
    done: Params,
    around: Around,
    kind: Kind,
) -> Result<State, Stuck>
    ensures { Does (machine.param_begins around.file owner done around.decls around.frames kind) result }
{
    if is_keyword(&kind, Keyword::Unchecked) {
        Ok(at(Focus::Unchecked { owner, done }, around))
    } else {
        after_unchecked(owner, done, false, around, kind)
    }
}

/// The parameters, and one more with this bound, if it has one.
pub fn and_param(done: Params, param: Param, bound: Option<Tall>) -> Result<Params, NoMemory>
    ensures { IfOk result (λ ps. ps ≡ machine.and_param done param bound) }
{
    let Param {
        name,
        unchecked,
        variance,
    } = param;
    done.with(TyParam {
        name,
        unchecked,
        variance,
        bound: option_of(bound),
    })
}

/// Behind a parameter that is whole, the last of these.
pub fn after_param(
    owner: Boxed<Owner>,
    params: Params,
    around: Around,
    kind: Kind,
) -> Result<State, Stuck>
    ensures { Does (machine.after_param around.file owner params around.decls around.frames kind) result }
{
    match kind {
        Kind::Mark(Mark::Comma) => {
            let done = params;
            Ok(at(Focus::Param { owner, done }, around))
        }
        Kind::Mark(Mark::CloseSquare) => Ok(at(Focus::Parameterized { owner, params }, around)),
        _ => Err(Stuck::Syntax),
    }
}

/// Behind a parameter with this bound, if it has one.
fn after_bounded(
    owner: Boxed<Owner>,
    done: Params,
    param: Param,
    bound: Option<Tall>,
    around: Around,
    kind: Kind,
) -> Result<State, Stuck>
    ensures { Does (machine.after_param around.file owner (machine.and_param done param bound) around.decls around.frames kind) result }
{
    let params = and_param(done, param, bound)?;
    after_param(owner, params, around, kind)
}

/// Behind the name of a parameter.
pub fn after_param_name(
    alloc: Global,
    owner: Boxed<Owner>,
    done: Params,
    param: Param,
    around: Around,
    kind: Kind,
) -> Result<State, Stuck>
    ensures { Does (machine.after_param_name around.file owner done param around.decls around.frames kind) result }
{
    if is_mark(&kind, Mark::Less) {
        let naming = no_naming(alloc);
        Ok(at(
            Focus::Bound {
                owner,
                done,
                param,
                naming,
            },
            around,
        ))
    } else {
        after_bounded(owner, done, param, None, around, kind)
    }
}

/// Behind a parameter whose bound is this name.
fn after_named(
    alloc: Global,
    owner: Boxed<Owner>,
    done: Params,
    param: Param,
    name: TypeName,
    around: Around,
    kind: Kind,
) -> Result<State, Stuck>
    ensures { Does (machine.after_param around.file owner (machine.and_param done param (Some (plain.name name plain.no_tys))) around.decls around.frames kind) result }
{
    let bound = Tall::name(name, Talls::new(alloc));
    after_bounded(owner, done, param, Some(bound), around, kind)
}

/// Behind the name of a bound.
pub fn after_bound_name(
    alloc: Global,
    owner: Boxed<Owner>,
    done: Params,
    param: Param,
    name: TypeName,
    around: Around,
    kind: Kind,
) -> Result<State, Stuck>
    ensures { Does (machine.after_bound_name around.file owner done param name around.decls around.frames kind) result }
{
    if is_mark(&kind, Mark::OpenSquare) {
        let inner = start_arguments(alloc, name)?;
        let purpose = Purpose::Bound { owner, done, param };
        typed_at(alloc, purpose, inner, around)
    } else {
        after_named(alloc, owner, done, param, name, around, kind)
    }
}

/// What a token that makes this progress in the name of a bound does.
fn bound_goes(
    alloc: Global,
    owner: Boxed<Owner>,
    done: Params,
    param: Param,
    progress: Progress,
    around: Around,
) -> Result<State, Stuck>
    ensures { (p : machine.Progress) → (kind : Kind) → Goes p kind progress
        → Does (machine.bound_goes around.file owner done param p around.decls around.frames kind) result }
{
    match progress {
        Progress::Further(naming) => Ok(at(
            Focus::Bound {
                owner,
                done,
                param,
                naming,
            },
            around,
        )),
        Progress::Whole(name) => Ok(at(
            Focus::BoundNamed {
                owner,
                done,
                param,
                name,
            },
            around,
        )),
        Progress::Before { name, kind } => {
            after_bound_name(alloc, owner, done, param, name, around, kind)
        }
        Progress::Stuck => Err(Stuck::Syntax),
    }
}

/// What a token does where the name of a bound must begin.
fn bound_begins(
    alloc: Global,
    owner: Boxed<Owner>,
    done: Params,
    param: Param,
    name: TypeName,
    around: Around,
    kind: Kind,
) -> Result<State, Stuck>
    ensures { Does (machine.bound_goes around.file owner done param (machine.first_on of_class_or_interface name kind) around.decls around.frames kind) result }
{
    let progress = first_on(alloc, NameUse::ClassOrInterface, name, kind)?;
    bound_goes(alloc, owner, done, param, progress, around)
}

/// Where a bound must begin.
fn bound_first(
    alloc: Global,
    owner: Boxed<Owner>,
    done: Params,
    param: Param,
    name: TypeName,
    around: Around,
    kind: Kind,
) -> Result<State, Stuck>
    ensures { Does (machine.bound_first around.file owner done param name around.decls around.frames kind) result }
{
    if is_keyword(&kind, Keyword::Singleton) {
        Ok(at(Focus::BoundSingleton { owner, done, param }, around))
    } else {
        bound_begins(alloc, owner, done, param, name, around, kind)
    }
}

/// What a token does in the name of a bound.
fn bound_goes_on(
    alloc: Global,
    owner: Boxed<Owner>,
    done: Params,
    param: Param,
    naming: Naming,
    around: Around,
    token: Token,
) -> Result<State, Stuck>
    ensures { Does (machine.bound_goes around.file owner done param (machine.naming_on of_class_or_interface naming token.kind token.spot) around.decls around.frames token.kind) result }
{
    let Token { kind, spot } = token;
    let progress = naming_on(alloc, NameUse::ClassOrInterface, naming, kind, &spot)?;
    bound_goes(alloc, owner, done, param, progress, around)
}

/// In the name of a bound.
pub fn in_bound(
    alloc: Global,
    owner: Boxed<Owner>,
    done: Params,
    param: Param,
    naming: Naming,
    around: Around,
    token: Token,
) -> Result<State, Stuck>
    ensures { Does (machine.in_bound around.file owner done param naming.name naming.step around.decls around.frames token.kind token.spot) result }
{
    let Naming { name, step } = naming;
    match step {
        Step::Start => bound_first(alloc, owner, done, param, name, around, token.kind),
        Step::Scope => {
            let naming = Naming { name, step };
            bound_goes_on(alloc, owner, done, param, naming, around, token)
        }
        Step::Upper => {
            let naming = Naming { name, step };
            bound_goes_on(alloc, owner, done, param, naming, around, token)
        }
    }
}

/// Behind `singleton`, as a bound.
pub fn after_bound_singleton(
    alloc: Global,
    owner: Boxed<Owner>,
    done: Params,
    param: Param,
    around: Around,
    kind: Kind,
) -> Result<State, Stuck>
    ensures { Does (machine.after_bound_singleton around.file owner done param around.decls around.frames kind) result }
{
    match kind {
        Kind::Mark(Mark::Open) => {
            let naming = no_naming(alloc);
            Ok(at(
                Focus::BoundClass {
                    owner,
                    done,
                    param,
                    naming,
                },
                around,
            ))
        }
        _ => Err(Stuck::Syntax),
    }
}

/// Behind `singleton(` and a name.
fn bound_class_closed(
    owner: Boxed<Owner>,
    done: Params,
    param: Param,
    name: TypeName,
    around: Around,
    kind: Kind,
) -> Result<State, Stuck>
    ensures { Does (machine.bound_class_closed around.file owner done param name around.decls around.frames kind) result }
{
    match kind {
        Kind::Mark(Mark::Close) => {
            let params = and_param(done, param, Some(Tall::single(name)))?;
            Ok(at(Focus::Bounded { owner, params }, around))
        }
        _ => Err(Stuck::Syntax),
    }
}

/// What a token that makes this progress in the name behind `singleton(` does.
fn bound_class_goes(
    owner: Boxed<Owner>,
    done: Params,
    param: Param,
    progress: Progress,
    around: Around,
) -> Result<State, Stuck>
    ensures { (p : machine.Progress) → (kind : Kind) → Goes p kind progress
        → Does (machine.bound_class_goes around.file owner done param p around.decls around.frames kind) result }
{
    match progress {
        Progress::Further(naming) => Ok(at(
            Focus::BoundClass {
                owner,
                done,
                param,
                naming,
            },
            around,
        )),
        Progress::Before { name, kind } => {
            bound_class_closed(owner, done, param, name, around, kind)
        }
        Progress::Whole(_) | Progress::Stuck => Err(Stuck::Syntax),
    }
}

/// In the name behind `singleton(`.
pub fn in_bound_class(
    alloc: Global,
    owner: Boxed<Owner>,
    done: Params,
    param: Param,
    naming: Naming,
    around: Around,
    token: Token,
) -> Result<State, Stuck>
    ensures { Does (machine.bound_class_goes around.file owner done param (machine.naming_on of_class naming token.kind token.spot) around.decls around.frames token.kind) result }
{
    let Token { kind, spot } = token;
    let progress = naming_on(alloc, NameUse::Class, naming, kind, &spot)?;
    bound_class_goes(owner, done, param, progress, around)
}
