//! Copies of types, which are equal to their source.

ghost use Rattle.std.specs.Prelude.{◌≡◌, IfOk};

use crate::ty::{Arg, BlockTy, FunTy, RecKey, Ty, TypeName};
use crate::{Boxed, Many, NoMemory, Word};
use std::alloc::Global;

/// A copy of a type: the plain twins are then equal too.
#[cycle(copy)]
pub fn copy_ty(alloc: Global, ty: &Ty) -> Result<Ty, NoMemory>
    ensures { IfOk result (λ copy. copy ≡ ty.now) }
{
    Ok(match ty {
        Ty::Name { name, args } => Ty::Name {
            name: copy_name(alloc, name)?,
            args: copy_tys(alloc, args.as_slice())?,
        },
        Ty::Single(name) => Ty::Single(copy_name(alloc, name)?),
        Ty::Opt(inner) => Ty::Opt(Boxed::new(alloc, copy_ty(alloc, inner.get())?)?),
        Ty::Union(parts) => Ty::Union(copy_tys(alloc, parts.as_slice())?),
        Ty::Inter(parts) => Ty::Inter(copy_tys(alloc, parts.as_slice())?),
        Ty::Tuple(parts) => Ty::Tuple(copy_tys(alloc, parts.as_slice())?),
        Ty::Rec(keys) => Ty::Rec(copy_keys(alloc, keys.as_slice())?),
        Ty::Fun(fun) => Ty::Fun(Boxed::new(alloc, copy_fun(alloc, fun.get())?)?),
        Ty::Int(n) => Ty::Int(*n),
        Ty::Str(word) => Ty::Str(word.clone()?),
        Ty::Sym(word) => Ty::Sym(word.clone()?),
        Ty::Base(base) => Ty::Base(*base),
    })
}

#[cycle(copy)]
fn copy_tys(alloc: Global, types: &[Ty]) -> Result<Many<Ty>, NoMemory>
    ensures { IfOk result (λ copy. copy ≡ types.now) }
{
    let mut out = Many::new(alloc);
    for ty in types {
        out.push(copy_ty(alloc, ty)?)?;
    }
    Ok(out)
}

#[cycle(copy)]
fn copy_keys(alloc: Global, keys: &[RecKey]) -> Result<Many<RecKey>, NoMemory>
    ensures { IfOk result (λ copy. copy ≡ keys.now) }
{
    let mut out = Many::new(alloc);
    for key in keys {
        out.push(RecKey {
            key: key.key.clone()?,
            needed: key.needed,
            ty: copy_ty(alloc, &key.ty)?,
        })?;
    }
    Ok(out)
}

#[cycle(copy)]
fn copy_arg(alloc: Global, arg: &Arg) -> Result<Arg, NoMemory>
    ensures { IfOk result (λ copy. copy ≡ arg.now) }
{
    Ok(Arg {
        ty: copy_ty(alloc, &arg.ty)?,
        name: copy_label(&arg.name)?,
    })
}

#[cycle(copy)]
fn copy_args(alloc: Global, args: &[Arg]) -> Result<Many<Arg>, NoMemory>
    ensures { IfOk result (λ copy. copy ≡ args.now) }
{
    let mut out = Many::new(alloc);
    for arg in args {
        out.push(copy_arg(alloc, arg)?)?;
    }
    Ok(out)
}

#[cycle(copy)]
fn copy_rest(alloc: Global, rest: &Option<Arg>) -> Result<Option<Arg>, NoMemory>
    ensures { IfOk result (λ copy. copy ≡ rest.now) }
{
    match rest {
        None => Ok(None),
        Some(arg) => Ok(Some(copy_arg(alloc, arg)?)),
    }
}

#[cycle(copy)]
fn copy_block(
    alloc: Global,
    block: &Option<Boxed<BlockTy>>,
) -> Result<Option<Boxed<BlockTy>>, NoMemory>
    ensures { IfOk result (λ copy. copy ≡ block.now) }
{
    match block {
        None => Ok(None),
        Some(block) => {
            let block = block.get();
            let fun = copy_fun(alloc, &block.fun)?;
            Ok(Some(Boxed::new(
                alloc,
                BlockTy {
                    needed: block.needed,
                    fun,
                },
            )?))
        }
    }
}

#[cycle(copy)]
fn copy_fun(alloc: Global, fun: &FunTy) -> Result<FunTy, NoMemory>
    ensures { IfOk result (λ copy. copy ≡ fun.now) }
{
    Ok(FunTy {
        required: copy_args(alloc, fun.required.as_slice())?,
        optional: copy_args(alloc, fun.optional.as_slice())?,
        rest: copy_rest(alloc, &fun.rest)?,
        trailing: copy_args(alloc, fun.trailing.as_slice())?,
        keys: copy_keys(alloc, fun.keys.as_slice())?,
        key_rest: copy_rest(alloc, &fun.key_rest)?,
        block: copy_block(alloc, &fun.block)?,
        result: copy_ty(alloc, &fun.result)?,
    })
}

/// A copy of a name.
pub fn copy_name(alloc: Global, name: &TypeName) -> Result<TypeName, NoMemory>
    ensures { IfOk result (λ copy. copy ≡ name.now) }
{
    Ok(TypeName {
        rooted: name.rooted,
        path: copy_words(alloc, name.path.as_slice())?,
    })
}

fn copy_words(alloc: Global, words: &[Word]) -> Result<Many<Word>, NoMemory>
    ensures { IfOk result (λ copy. copy ≡ words.now) }
{
    let mut out = Many::new(alloc);
    for word in words {
        out.push(word.clone()?)?;
    }
    Ok(out)
}

fn copy_label(label: &Option<Word>) -> Result<Option<Word>, NoMemory>
    ensures { IfOk result (λ copy. copy ≡ label.now) }
{
    match label {
        None => Ok(None),
        Some(word) => Ok(Some(word.clone()?)),
    }
}
