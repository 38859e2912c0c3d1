//! Headings of declarations, with superclasses and self types.

ghost use Rattle.std.specs.Prelude.{◌≡◌, [], Some, IfOk};
ghost use Rattle.rbs_terminals.specs.declared.token.Kind.{Kind};
ghost use Rattle.sig_model.specs.PlainTy as plain;
ghost use Rattle.rbs_types.specs.Grammar.{of_class, of_class_or_interface};
ghost use Rattle.rbs_types.specs.Machine as types;
ghost use Rattle.rbs_types.specs.Plains.{and_ty};
ghost use Rattle.rbs_declarations.specs.declared.state.Focus.TheVariants as focus;
ghost use Rattle.rbs_declarations.specs.declared.state.Purpose.TheVariants as purpose;
ghost use Rattle.rbs_declarations.specs.Machine as machine;
ghost use Rattle.rbs_declarations.specs.Does.{Does, Goes};

use crate::around::{Around, at, typed_at};
use crate::begins::then_part;
use crate::plain::Params;
use crate::refused::Stuck;
use crate::state::{Begun, Focus, Heading, Naming, Owner, Purpose, Sort, State};
use crate::type_names::{NameUse, Progress, naming_on, no_naming, use_of};
use crate::wholes::{opened, opening};
use plain_data::{Boxed, NoMemory};
use rbs_terminals::{Kind, Mark, Spot, Token, is_mark};
use rbs_types::{Tall, Talls, start, start_arguments};
use sig_model::ty::TypeName;
use std::alloc::Global;

/// A declaration up to its type parameters, if it has any.
#[derive(Drop)]
pub struct Headed {
    pub begun: Begun,
    pub name: TypeName,
    pub params: Params,
}

/// What a token does behind a whole heading without superclass and self types.
fn then_opened(
    alloc: Global,
    sort: Sort,
    headed: Headed,
    around: Around,
    token: Token,
) -> Result<State, Stuck>
    ensures { Does (machine.then_part around.file (machine.opened headed.begun sort headed.name headed.params around.decls around.frames) token.kind token.spot) result }
{
    let Headed {
        begun,
        name,
        params,
    } = headed;
    let file = around.file;
    let whole = opened(alloc, begun, sort, name, params, around)?;
    then_part(alloc, file, whole, token)
}

/// Behind the name and the parameters of a class.
fn after_class_params(
    alloc: Global,
    headed: Headed,
    around: Around,
    token: Token,
) -> Result<State, Stuck>
    ensures { Does (machine.after_class_params around.file headed.begun headed.name headed.params around.decls around.frames token.kind token.spot) result }
{
    if is_mark(&token.kind, Mark::Less) {
        let Headed {
            begun,
            name,
            params,
        } = headed;
        let naming = no_naming(alloc);
        Ok(at(
            Focus::Parent {
                begun,
                name,
                params,
                naming,
            },
            around,
        ))
    } else {
        then_opened(alloc, Sort::Class, headed, around, token)
    }
}

/// Where a self type must come behind these.
fn self_begins(alloc: Global, headed: Headed, selves: Talls, around: Around) -> State
    ensures { machine.at (focus.SelfType headed.begun headed.name headed.params selves machine.no_naming) around.decls around.frames ≡ Some result }
{
    let Headed {
        begun,
        name,
        params,
    } = headed;
    let naming = no_naming(alloc);
    at(
        Focus::SelfType {
            begun,
            name,
            params,
            selves,
            naming,
        },
        around,
    )
}

/// Behind the name and the parameters of a module.
fn after_module_params(
    alloc: Global,
    headed: Headed,
    around: Around,
    token: Token,
) -> Result<State, Stuck>
    ensures { Does (machine.after_module_params around.file headed.begun headed.name headed.params around.decls around.frames token.kind token.spot) result }
{
    if is_mark(&token.kind, Mark::Colon) {
        let selves = Talls::new(alloc);
        Ok(self_begins(alloc, headed, selves, around))
    } else {
        then_opened(alloc, Sort::Module, headed, around, token)
    }
}

/// Behind the name and the parameters of a type's alias.
fn after_alias_params(
    alloc: Global,
    headed: Headed,
    around: Around,
    kind: Kind,
) -> Result<State, Stuck>
    ensures { Does (machine.after_alias_params around.file headed.begun headed.name headed.params around.decls around.frames kind) result }
{
    match kind {
        Kind::Mark(Mark::Equals) => {
            let Headed {
                begun,
                name,
                params,
            } = headed;
            let inner = start(alloc);
            let purpose = Purpose::Alias {
                begun,
                name,
                params,
            };
            typed_at(alloc, purpose, inner, around)
        }
        _ => Err(Stuck::Syntax),
    }
}

/// Behind the name of a constant.
fn after_constant(
    alloc: Global,
    begun: Begun,
    name: TypeName,
    around: Around,
    kind: Kind,
) -> Result<State, Stuck>
    ensures { Does (machine.after_constant around.file begun name around.decls around.frames kind) result }
{
    match kind {
        Kind::Mark(Mark::Colon) => {
            let inner = start(alloc);
            let purpose = Purpose::Constant { begun, name };
            typed_at(alloc, purpose, inner, around)
        }
        _ => Err(Stuck::Syntax),
    }
}

/// Behind the name and the parameters of a declaration.
pub fn after_heading(
    alloc: Global,
    sort: Sort,
    headed: Headed,
    around: Around,
    token: Token,
) -> Result<State, Stuck>
    ensures { Does (machine.after_heading around.file headed.begun sort headed.name headed.params around.decls around.frames token.kind token.spot) result }
{
    match sort {
        Sort::Class => after_class_params(alloc, headed, around, token),
        Sort::Module => after_module_params(alloc, headed, around, token),
        Sort::Interface => then_opened(alloc, Sort::Interface, headed, around, token),
        Sort::Alias => after_alias_params(alloc, headed, around, token.kind),
        Sort::Constant => after_constant(alloc, headed.begun, headed.name, around, token.kind),
    }
}

/// Behind the bracket that opens the parameters of a declaration.
fn params_begin(
    alloc: Global,
    begun: Begun,
    sort: Sort,
    name: TypeName,
    around: Around,
) -> Result<State, Stuck>
    ensures { Does (machine.params_begin around.file begun sort name around.decls around.frames) result }
{
    match sort {
        Sort::Constant => Err(Stuck::Syntax),
        sort => {
            let owner = Boxed::new(alloc, Owner::Heading { begun, sort, name })?;
            let done = Params::new(alloc);
            Ok(at(Focus::Param { owner, done }, around))
        }
    }
}

/// Behind the name of a declaration that has no parameters.
fn after_plain_name(
    alloc: Global,
    begun: Begun,
    sort: Sort,
    name: TypeName,
    around: Around,
    token: Token,
) -> Result<State, Stuck>
    ensures { Does (machine.after_heading around.file begun sort name [] around.decls around.frames token.kind token.spot) result }
{
    let params = Params::new(alloc);
    let headed = Headed {
        begun,
        name,
        params,
    };
    after_heading(alloc, sort, headed, around, token)
}

/// Behind the name of a declaration.
pub fn after_name(
    alloc: Global,
    begun: Begun,
    sort: Sort,
    name: TypeName,
    around: Around,
    token: Token,
) -> Result<State, Stuck>
    ensures { Does (machine.after_name around.file begun sort name around.decls around.frames token.kind token.spot) result }
{
    if is_mark(&token.kind, Mark::OpenSquare) {
        params_begin(alloc, begun, sort, name, around)
    } else {
        after_plain_name(alloc, begun, sort, name, around, token)
    }
}

/// What a token that makes this progress in the name of a declaration does.
fn name_goes(
    alloc: Global,
    begun: Begun,
    sort: Sort,
    progress: Progress,
    around: Around,
    spot: Spot,
) -> Result<State, Stuck>
    ensures { (p : machine.Progress) → (kind : Kind) → Goes p kind progress
        → Does (machine.name_goes around.file begun sort p around.decls around.frames kind spot) result }
{
    match progress {
        Progress::Further(naming) => Ok(at(
            Focus::Name {
                begun,
                sort,
                naming,
            },
            around,
        )),
        Progress::Whole(name) => Ok(at(Focus::Named { begun, sort, name }, around)),
        Progress::Before { name, kind } => {
            after_name(alloc, begun, sort, name, around, Token { kind, spot })
        }
        Progress::Stuck => Err(Stuck::Syntax),
    }
}

/// In the name of a declaration.
pub fn in_name(
    alloc: Global,
    begun: Begun,
    sort: Sort,
    naming: Naming,
    around: Around,
    token: Token,
) -> Result<State, Stuck>
    ensures { Does (machine.name_goes around.file begun sort (machine.naming_on (machine.use_of sort) naming token.kind token.spot) around.decls around.frames token.kind token.spot) result }
{
    let Token { kind, spot } = token;
    let progress = naming_on(alloc, use_of(sort), naming, kind, &spot)?;
    name_goes(alloc, begun, sort, progress, around, spot)
}

/// The state behind a class with this superclass.
pub fn with_parent(
    alloc: Global,
    headed: Headed,
    parent: Tall,
    around: Around,
) -> Result<State, NoMemory>
    ensures { IfOk result (λ s. machine.with_parent around.file headed.begun headed.name headed.params parent around.decls around.frames ≡ Some s) }
{
    let Headed {
        begun,
        name,
        params,
    } = headed;
    let parent = Some(parent);
    let heading = Heading::Class {
        name,
        params,
        parent,
    };
    opening(alloc, begun, heading, around)
}

/// What a token does behind a class with this superclass, which has no arguments.
fn then_parent(
    alloc: Global,
    headed: Headed,
    parent: TypeName,
    around: Around,
    token: Token,
) -> Result<State, Stuck>
    ensures { Does (machine.then_part around.file (machine.with_parent around.file headed.begun headed.name headed.params (plain.name parent plain.no_tys) around.decls around.frames) token.kind token.spot) result }
{
    let file = around.file;
    let parent = Tall::name(parent, Talls::new(alloc));
    let whole = with_parent(alloc, headed, parent, around)?;
    then_part(alloc, file, whole, token)
}

/// Behind the bracket of the arguments of a superclass.
fn parent_arguments(
    alloc: Global,
    headed: Headed,
    parent: TypeName,
    around: Around,
) -> Result<State, Stuck>
    ensures { Does (machine.at (focus.Typed (purpose.Parent headed.begun headed.name headed.params) (types.start_arguments parent)) around.decls around.frames) result }
{
    let Headed {
        begun,
        name,
        params,
    } = headed;
    let inner = start_arguments(alloc, parent)?;
    let purpose = Purpose::Parent {
        begun,
        name,
        params,
    };
    typed_at(alloc, purpose, inner, around)
}

/// Behind the name of a superclass.
fn after_parent_name(
    alloc: Global,
    headed: Headed,
    parent: TypeName,
    around: Around,
    token: Token,
) -> Result<State, Stuck>
    ensures { Does (machine.after_parent_name around.file headed.begun headed.name headed.params parent around.decls around.frames token.kind token.spot) result }
{
    if is_mark(&token.kind, Mark::OpenSquare) {
        parent_arguments(alloc, headed, parent, around)
    } else {
        then_parent(alloc, headed, parent, around, token)
    }
}

/// What a token that makes this progress in the name of a superclass does.
fn parent_goes(
    alloc: Global,
    headed: Headed,
    progress: Progress,
    around: Around,
    spot: Spot,
) -> Result<State, Stuck>
    ensures { (p : machine.Progress) → (kind : Kind) → Goes p kind progress
        → Does (machine.parent_goes around.file headed.begun headed.name headed.params p around.decls around.frames kind spot) result }
{
    match progress {
        Progress::Further(naming) => {
            let Headed {
                begun,
                name,
                params,
            } = headed;
            Ok(at(
                Focus::Parent {
                    begun,
                    name,
                    params,
                    naming,
                },
                around,
            ))
        }
        Progress::Before { name, kind } => {
            after_parent_name(alloc, headed, name, around, Token { kind, spot })
        }
        Progress::Whole(_) | Progress::Stuck => Err(Stuck::Syntax),
    }
}

/// In the name of a superclass.
pub fn in_parent(
    alloc: Global,
    headed: Headed,
    naming: Naming,
    around: Around,
    token: Token,
) -> Result<State, Stuck>
    ensures { Does (machine.parent_goes around.file headed.begun headed.name headed.params (machine.naming_on of_class naming token.kind token.spot) around.decls around.frames token.kind token.spot) result }
{
    let Token { kind, spot } = token;
    let progress = naming_on(alloc, NameUse::Class, naming, kind, &spot)?;
    parent_goes(alloc, headed, progress, around, spot)
}

/// The state behind a module with these self types.
pub fn with_selves(
    alloc: Global,
    headed: Headed,
    selves: Talls,
    around: Around,
) -> Result<State, NoMemory>
    ensures { IfOk result (λ s. machine.with_selves around.file headed.begun headed.name headed.params selves around.decls around.frames ≡ Some s) }
{
    let Headed {
        begun,
        name,
        params,
    } = headed;
    let heading = Heading::Module {
        name,
        params,
        selves,
    };
    opening(alloc, begun, heading, around)
}

/// What a token does behind a module with these self types.
fn then_selves(
    alloc: Global,
    headed: Headed,
    selves: Talls,
    around: Around,
    token: Token,
) -> Result<State, Stuck>
    ensures { Does (machine.then_part around.file (machine.with_selves around.file headed.begun headed.name headed.params selves around.decls around.frames) token.kind token.spot) result }
{
    let file = around.file;
    let whole = with_selves(alloc, headed, selves, around)?;
    then_part(alloc, file, whole, token)
}

/// Behind self types that are whole.
fn after_self(
    alloc: Global,
    headed: Headed,
    selves: Talls,
    around: Around,
    token: Token,
) -> Result<State, Stuck>
    ensures { Does (machine.after_self around.file headed.begun headed.name headed.params selves around.decls around.frames token.kind token.spot) result }
{
    if is_mark(&token.kind, Mark::Comma) {
        Ok(self_begins(alloc, headed, selves, around))
    } else {
        then_selves(alloc, headed, selves, around, token)
    }
}

/// Behind these self types and one more, which is whole.
pub fn after_one_more(
    alloc: Global,
    headed: Headed,
    selves: Talls,
    last: Tall,
    around: Around,
    token: Token,
) -> Result<State, Stuck>
    ensures { Does (machine.after_self around.file headed.begun headed.name headed.params (and_ty selves last) around.decls around.frames token.kind token.spot) result }
{
    let selves = selves.with(last)?;
    after_self(alloc, headed, selves, around, token)
}

/// Behind these self types and the name of one more, which has no arguments.
fn after_plain_self(
    alloc: Global,
    headed: Headed,
    selves: Talls,
    last: TypeName,
    around: Around,
    token: Token,
) -> Result<State, Stuck>
    ensures { Does (machine.after_self around.file headed.begun headed.name headed.params (and_ty selves (plain.name last plain.no_tys)) around.decls around.frames token.kind token.spot) result }
{
    let last = Tall::name(last, Talls::new(alloc));
    after_one_more(alloc, headed, selves, last, around, token)
}

/// Behind the bracket of the arguments of a self type.
fn self_arguments(
    alloc: Global,
    headed: Headed,
    selves: Talls,
    last: TypeName,
    around: Around,
) -> Result<State, Stuck>
    ensures { Does (machine.at (focus.Typed (purpose.SelfType headed.begun headed.name headed.params selves) (types.start_arguments last)) around.decls around.frames) result }
{
    let Headed {
        begun,
        name,
        params,
    } = headed;
    let inner = start_arguments(alloc, last)?;
    let purpose = Purpose::SelfType {
        begun,
        name,
        params,
        selves,
    };
    typed_at(alloc, purpose, inner, around)
}

/// Behind the name of a self type.
pub fn after_self_name(
    alloc: Global,
    headed: Headed,
    selves: Talls,
    last: TypeName,
    around: Around,
    token: Token,
) -> Result<State, Stuck>
    ensures { Does (machine.after_self_name around.file headed.begun headed.name headed.params selves last around.decls around.frames token.kind token.spot) result }
{
    if is_mark(&token.kind, Mark::OpenSquare) {
        self_arguments(alloc, headed, selves, last, around)
    } else {
        after_plain_self(alloc, headed, selves, last, around, token)
    }
}

/// What a token that makes this progress in the name of a self type does.
fn self_goes(
    alloc: Global,
    headed: Headed,
    selves: Talls,
    progress: Progress,
    around: Around,
    spot: Spot,
) -> Result<State, Stuck>
    ensures { (p : machine.Progress) → (kind : Kind) → Goes p kind progress
        → Does (machine.self_goes around.file headed.begun headed.name headed.params selves p around.decls around.frames kind spot) result }
{
    match progress {
        Progress::Further(naming) => {
            let Headed {
                begun,
                name,
                params,
            } = headed;
            Ok(at(
                Focus::SelfType {
                    begun,
                    name,
                    params,
                    selves,
                    naming,
                },
                around,
            ))
        }
        Progress::Whole(self_name) => {
            let Headed {
                begun,
                name,
                params,
            } = headed;
            Ok(at(
                Focus::SelfNamed {
                    begun,
                    name,
                    params,
                    selves,
                    self_name,
                },
                around,
            ))
        }
        Progress::Before { name, kind } => {
            after_self_name(alloc, headed, selves, name, around, Token { kind, spot })
        }
        Progress::Stuck => Err(Stuck::Syntax),
    }
}

/// In the name of a self type.
pub fn in_self(
    alloc: Global,
    headed: Headed,
    selves: Talls,
    naming: Naming,
    around: Around,
    token: Token,
) -> Result<State, Stuck>
    ensures { Does (machine.self_goes around.file headed.begun headed.name headed.params selves (machine.naming_on of_class_or_interface naming token.kind token.spot) around.decls around.frames token.kind token.spot) result }
{
    let Token { kind, spot } = token;
    let progress = naming_on(alloc, NameUse::ClassOrInterface, naming, kind, &spot)?;
    self_goes(alloc, headed, selves, progress, around, spot)
}
