use crate::build::{base_type, class_decl, class_name, empty_notes, named_type, plain_method_part};
use crate::copy::copy_ty;
use crate::decl::{Decl, DeclBody, Member, MethodTy, Part};
use crate::height::height_of;
use crate::place::Place;
use crate::ty::{Arg, BaseTy, BlockTy, FunTy, RecKey, Ty};
use crate::{Boxed, Many, NoMemory, Word};
use std::alloc::Global;
use std::test::Fail;

const PLACE: Place = Place {
    file: 1,
    start: 2,
    end: 9,
};

/// A function of one required parameter, whose block is this one.
fn function(
    alloc: Global,
    param: Ty,
    block: Option<Boxed<BlockTy>>,
    outcome: Ty,
) -> Result<FunTy, NoMemory> {
    let mut required = Many::new(alloc);
    required.push(Arg {
        ty: param,
        name: None,
    })?;
    Ok(FunTy {
        required,
        optional: Many::new(alloc),
        rest: None,
        trailing: Many::new(alloc),
        keys: Many::new(alloc),
        key_rest: None,
        block,
        result: outcome,
    })
}

/// `{ size?: Integer } | ^(nil) { (nil) -> Integer } -> void`.
fn sample(alloc: Global) -> Result<Ty, NoMemory> {
    let mut keys = Many::new(alloc);
    keys.push(RecKey {
        key: Word::of(alloc, "size")?,
        needed: false,
        ty: named_type(alloc, Word::of(alloc, "Integer")?)?,
    })?;
    let integer = named_type(alloc, Word::of(alloc, "Integer")?)?;
    let block = BlockTy {
        needed: true,
        fun: function(alloc, base_type(BaseTy::Nil), None, integer)?,
    };
    let block = Some(Boxed::new(alloc, block)?);
    let fun = function(
        alloc,
        base_type(BaseTy::Nil),
        block,
        base_type(BaseTy::Void),
    )?;
    let mut parts = Many::new(alloc);
    parts.push(Ty::Rec(keys))?;
    parts.push(Ty::Fun(Boxed::new(alloc, fun)?))?;
    Ok(Ty::Union(parts))
}

#[test]
fn copies_types(rt: HostRuntime) -> Result<(), Fail> {
    let alloc = rt.alloc();
    let ty = sample(alloc)?;
    assert_eq!(rt; copy_ty(alloc, &ty)?, ty);
    Ok(())
}

#[test]
#[tactic(auto, using(crate::specs::Plain::plain_types))]
fn measures_types(rt: HostRuntime) -> Result<(), Fail> {
    let alloc = rt.alloc();
    let name = named_type(alloc, Word::of(alloc, "Integer")?)?;
    assert_eq!(rt; height_of(&name), 1);
    assert_eq!(rt; height_of(&base_type(BaseTy::Nil)), 1);
    let optional = Ty::Opt(Boxed::new(alloc, name)?);
    assert_eq!(rt; height_of(&optional), 2);
    Ok(())
}

#[test]
fn builds_a_class(rt: HostRuntime) -> Result<(), Fail> {
    let alloc = rt.alloc();
    let mut required = Many::new(alloc);
    required.push(base_type(BaseTy::Top))?;
    let name = Word::of(alloc, "push")?;
    let part = plain_method_part(alloc, PLACE, name, required, base_type(BaseTy::Void))?;
    let mut overloads = Many::new(alloc);
    overloads.push(MethodTy {
        params: Many::new(alloc),
        fun: function(alloc, base_type(BaseTy::Top), None, base_type(BaseTy::Void))?,
    })?;
    let member = Member::Method {
        vis: None,
        single: false,
        name: Word::of(alloc, "push")?,
        overloads,
    };
    let want = Part::Member {
        place: PLACE,
        notes: empty_notes(alloc),
        member,
    };
    assert_eq!(rt; part, want);
    let mut parts = Many::new(alloc);
    parts.push(part)?;
    let mut want_parts = Many::new(alloc);
    want_parts.push(want)?;
    let class = class_decl(alloc, PLACE, Word::of(alloc, "Stack")?, parts)?;
    let body = DeclBody::Class {
        name: class_name(alloc, Word::of(alloc, "Stack")?)?,
        params: Many::new(alloc),
        parent: None,
        parts: want_parts,
    };
    let want = Decl {
        place: PLACE,
        notes: empty_notes(alloc),
        body,
    };
    assert_eq!(rt; class, want);
    Ok(())
}
