//! Members and declarations, made of their parts.
#![tactic(auto, using(sig_model::specs::Plain::plain_all))]

ghost use Rattle.std.specs.Prelude.{◌≡◌, IfOk};
ghost use Rattle.sig_model.specs.PlainTy.{plain_ty};
ghost use Rattle.sig_model.specs.PlainMember as plain;
ghost use Rattle.sig_model.specs.PlainMember.{plain_member, plain_option};
ghost use Rattle.sig_model.specs.PlainDecl as decl;
ghost use Rattle.sig_model.specs.PlainDecl.{plain_body};
ghost use Rattle.rbs_declarations.specs.Machine as machine;

use crate::plain::{Methods, Params, Parts};
use plain_data::{NoMemory, Word};
use rbs_types::{Tall, Talls};
use sig_model::decl::{AttrKind, DeclBody, Member, MixKind, Vis};
use sig_model::ty::{Ty, TypeName};

/// The type, if there is one.
pub fn option_of(ty: Option<Tall>) -> Option<Ty>
    ensures { plain_option result ≡ ty }
{
    match ty {
        Some(ty) => Some(ty.into_ty()),
        None => None,
    }
}

/// The overloads, and one more, or `None` where the type is no function.
pub fn and_overload(done: Methods, params: Params, ty: Tall) -> Result<Option<Methods>, NoMemory>
    ensures { IfOk result (λ ms. ms ≡ machine.and_overload done params ty) }
{
    match ty.into_function() {
        Some(fun) => Ok(Some(done.with(params, fun)?)),
        None => Ok(None),
    }
}

/// A method with these overloads.
pub fn method(vis: Option<Vis>, single: bool, name: Word, overloads: Methods) -> Member
    ensures { plain_member result ≡ plain.method vis single name overloads }
{
    Member::Method {
        vis,
        single,
        name,
        overloads: overloads.into_items(),
    }
}

/// An attribute of this type.
pub fn attribute(vis: Option<Vis>, kind: AttrKind, name: Word, ty: Tall) -> Member
    ensures { plain_member result ≡ plain.attr vis kind name ty }
{
    Member::Attr {
        vis,
        kind,
        name,
        ty: ty.into_ty(),
    }
}

/// What is mixed in.
pub fn mixin(kind: MixKind, ty: Tall) -> Member
    ensures { plain_member result ≡ plain.mixin kind ty }
{
    Member::Mixin {
        kind,
        ty: ty.into_ty(),
    }
}

/// A further name of a method.
pub fn method_alias(new: Word, old: Word) -> Member
    ensures { plain_member result ≡ plain.alias new old }
{
    Member::Alias { new, old }
}

/// An instance variable of this type.
pub fn variable(single: bool, name: Word, ty: Tall) -> Member
    ensures { plain_member result ≡ plain.ivar single name ty }
{
    Member::Ivar {
        single,
        name,
        ty: ty.into_ty(),
    }
}

/// A visibility for the members behind it.
pub fn section(vis: Vis) -> Member
    ensures { plain_member result ≡ plain.section vis }
{
    Member::Section(vis)
}

pub fn class(name: TypeName, params: Params, parent: Option<Tall>, parts: Parts) -> DeclBody
    ensures { plain_body result ≡ decl.class name params parent parts }
{
    DeclBody::Class {
        name,
        params: params.into_items(),
        parent: option_of(parent),
        parts: parts.into_items(),
    }
}

pub fn module(name: TypeName, params: Params, selves: Talls, parts: Parts) -> DeclBody
    ensures { plain_body result ≡ decl.module name params selves parts }
{
    DeclBody::Module {
        name,
        params: params.into_items(),
        selves: selves.into_tys(),
        parts: parts.into_items(),
    }
}

pub fn interface(name: TypeName, params: Params, parts: Parts) -> DeclBody
    ensures { plain_body result ≡ decl.iface name params parts }
{
    DeclBody::Iface {
        name,
        params: params.into_items(),
        parts: parts.into_items(),
    }
}

/// A name of a type.
pub fn type_alias(name: TypeName, params: Params, ty: Tall) -> DeclBody
    ensures { plain_body result ≡ decl.alias name params ty }
{
    DeclBody::Alias {
        name,
        params: params.into_items(),
        ty: ty.into_ty(),
    }
}

pub fn constant(name: TypeName, ty: Tall) -> DeclBody
    ensures { plain_body result ≡ decl.const name ty }
{
    DeclBody::Const {
        name,
        ty: ty.into_ty(),
    }
}
