//! The declarations of the core signature.
#![tactic(auto, using(sig_model::specs::Plain::plain_decls_of))]

ghost use Rattle.std.specs.Prelude.{◌≡◌, [], IfOk, None, Some};
ghost use Rattle.sig_model.specs.PlainMember.{plain_params, plain_param};
ghost use Rattle.sig_model.specs.PlainDecl.{plain_decl, plain_parts};
ghost use Rattle.sig_model.specs.Built.{named};
ghost use Rattle.core_texts.specs.Shapes.{unchecked_out, class_at, module_at, alias_at};
ghost use Rattle.core_texts.specs.Written.{written};

use crate::members::Members;
use crate::places::span;
use crate::types::{CoreTy, built, called};
use plain_data::{Many, NoMemory, Word};
use sig_model::build::{class_name, empty_notes};
use sig_model::decl::{Decl, DeclBody, TyParam, Variance};
use std::alloc::Global;

/// A class without a stated superclass.
pub fn generic_class(
    alloc: Global,
    start: u32,
    end: u32,
    name: &str,
    params: Many<TyParam>,
    members: Members,
) -> Result<Decl, NoMemory>
    ensures { IfOk result (λ d. plain_decl d ≡ class_at start end name.now (plain_params params) None (plain_parts members.parts)) }
{
    Ok(Decl {
        place: span(start, end),
        notes: empty_notes(alloc),
        body: DeclBody::Class {
            name: class_name(alloc, Word::of(alloc, name)?)?,
            params,
            parent: None,
            parts: members.parts,
        },
    })
}

/// A class without type parameters and without a stated superclass.
pub fn class(
    alloc: Global,
    start: u32,
    end: u32,
    name: &str,
    members: Members,
) -> Result<Decl, NoMemory>
    ensures { IfOk result (λ d. plain_decl d ≡ class_at start end name.now [] None (plain_parts members.parts)) }
{
    let params = Many::new(alloc);
    generic_class(alloc, start, end, name, params, members)
}

/// A class without type parameters, below the class of the name `parent`.
pub fn class_below(
    alloc: Global,
    start: u32,
    end: u32,
    name: &str,
    parent: &str,
    members: Members,
) -> Result<Decl, NoMemory>
    ensures { IfOk result (λ d. plain_decl d ≡ class_at start end name.now [] (Some (named parent.now)) (plain_parts members.parts)) }
{
    Ok(Decl {
        place: span(start, end),
        notes: empty_notes(alloc),
        body: DeclBody::Class {
            name: class_name(alloc, Word::of(alloc, name)?)?,
            params: Many::new(alloc),
            parent: Some(called(alloc, parent)?),
            parts: members.parts,
        },
    })
}

/// A module that is for objects of the class of the name `base`.
pub fn module_for(
    alloc: Global,
    start: u32,
    end: u32,
    name: &str,
    base: &str,
    members: Members,
) -> Result<Decl, NoMemory>
    ensures { IfOk result (λ d. plain_decl d ≡ module_at start end name.now (named base.now) (plain_parts members.parts)) }
{
    let mut selves = Many::new(alloc);
    selves.push(called(alloc, base)?)?;
    Ok(Decl {
        place: span(start, end),
        notes: empty_notes(alloc),
        body: DeclBody::Module {
            name: class_name(alloc, Word::of(alloc, name)?)?,
            params: Many::new(alloc),
            selves,
            parts: members.parts,
        },
    })
}

/// An alias without type parameters.
pub fn alias(alloc: Global, start: u32, end: u32, name: &str, ty: CoreTy) -> Result<Decl, NoMemory>
    ensures { IfOk result (λ d. plain_decl d ≡ alias_at start end name.now (written ty)) }
{
    Ok(Decl {
        place: span(start, end),
        notes: empty_notes(alloc),
        body: DeclBody::Alias {
            name: class_name(alloc, Word::of(alloc, name)?)?,
            params: Many::new(alloc),
            ty: built(alloc, ty)?,
        },
    })
}

/// The type parameter `unchecked out X`.
pub fn unchecked_out(alloc: Global, name: &str) -> Result<TyParam, NoMemory>
    ensures { IfOk result (λ param. plain_param param ≡ unchecked_out name.now) }
{
    Ok(TyParam {
        name: Word::of(alloc, name)?,
        unchecked: true,
        variance: Variance::Out,
        bound: None,
    })
}
