//! How deep a type is.
#![tactic(auto, using(crate::specs::Plain::plain_types))]

ghost use Rattle.std.specs.Prelude.{◌≡◌, ◌<◌, ◌^◌};
ghost use Rattle.sig_model.specs.PlainTy.{plain_ty, plain_tys, plain_keys, plain_args, plain_rest, plain_block, plain_fun};
ghost use Rattle.sig_model.specs.Height.{height, tallest, tallest_key, tallest_arg, rest_height, block_height, fun_height};

use crate::Boxed;
use crate::ty::{Arg, BlockTy, FunTy, RecKey, Ty};

/// The height of a type: a leaf has height 1, and a type with parts is 1 above its highest part.
pub fn height_of(ty: &Ty) -> u32
    requires { height (plain_ty ty.now) < 2 ^ 32 }
    ensures { result ≡ height (plain_ty ty.now) }
{
    height_below(ty)
}

/// The height of a type, where it fits.
#[cycle(height)]
fn height_below(ty: &Ty) -> u32
    ensures { height (plain_ty ty.now) < 2 ^ 32 → result ≡ height (plain_ty ty.now) }
{
    match ty {
        Ty::Name { name: _, args } => tallest_of(args.as_slice()).saturating_add(1),
        Ty::Opt(inner) => height_below(inner.get()).saturating_add(1),
        Ty::Union(parts) | Ty::Inter(parts) | Ty::Tuple(parts) => tallest_of(
            parts.as_slice(),
        ).saturating_add(1),
        Ty::Rec(keys) => tallest_key_of(keys.as_slice()).saturating_add(1),
        Ty::Fun(fun) => fun_height_of(fun.get()).saturating_add(1),
        Ty::Single(_) | Ty::Int(_) | Ty::Str(_) | Ty::Sym(_) | Ty::Base(_) => 1,
    }
}

#[cycle(height)]
fn tallest_of(types: &[Ty]) -> u32
    ensures { tallest (plain_tys types.now) < 2 ^ 32 → result ≡ tallest (plain_tys types.now) }
{
    let mut most = 0u32;
    for ty in types {
        most = most.max(height_below(ty));
    }
    most
}

#[cycle(height)]
fn tallest_key_of(keys: &[RecKey]) -> u32
    ensures { tallest_key (plain_keys keys.now) < 2 ^ 32 → result ≡ tallest_key (plain_keys keys.now) }
{
    let mut most = 0u32;
    for key in keys {
        most = most.max(height_below(&key.ty));
    }
    most
}

#[cycle(height)]
fn tallest_arg_of(args: &[Arg]) -> u32
    ensures { tallest_arg (plain_args args.now) < 2 ^ 32 → result ≡ tallest_arg (plain_args args.now) }
{
    let mut most = 0u32;
    for arg in args {
        most = most.max(height_below(&arg.ty));
    }
    most
}

#[cycle(height)]
fn rest_height_of(rest: &Option<Arg>) -> u32
    ensures { rest_height (plain_rest rest.now) < 2 ^ 32 → result ≡ rest_height (plain_rest rest.now) }
{
    match rest {
        None => 0,
        Some(arg) => height_below(&arg.ty),
    }
}

#[cycle(height)]
fn block_height_of(block: &Option<Boxed<BlockTy>>) -> u32
    ensures { block_height (plain_block block.now) < 2 ^ 32 → result ≡ block_height (plain_block block.now) }
{
    match block {
        None => 0,
        Some(block) => fun_height_of(&block.get().fun),
    }
}

#[cycle(height)]
fn fun_height_of(fun: &FunTy) -> u32
    ensures { fun_height (plain_fun fun.now) < 2 ^ 32 → result ≡ fun_height (plain_fun fun.now) }
{
    tallest_arg_of(fun.required.as_slice())
        .max(tallest_arg_of(fun.optional.as_slice()))
        .max(rest_height_of(&fun.rest))
        .max(tallest_arg_of(fun.trailing.as_slice()))
        .max(tallest_key_of(fun.keys.as_slice()))
        .max(rest_height_of(&fun.key_rest))
        .max(block_height_of(&fun.block))
        .max(height_below(&fun.result))
}
