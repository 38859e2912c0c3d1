//! The overloads that the core signature writes.

ghost use Rattle.std.specs.Prelude.{◌≡◌, IfOk, OnOk};
ghost use Rattle.sig_model.specs.PlainTy.{plain_ty, plain_args, plain_block, plain_fun, append_args};
ghost use Rattle.sig_model.specs.PlainMember.{plain_method, plain_params, plain_param};
ghost use Rattle.sig_model.specs.Built.{unnamed};
ghost use Rattle.core_texts.specs.Types.{one};
ghost use Rattle.core_texts.specs.Shapes.{function_of, plain_param as bare_param};
ghost use Rattle.core_texts.specs.Written.{written, required_of, optional_of, block_of, method_of};

use crate::types::{CoreTy, built};
use plain_data::{Boxed, Many, NoMemory, Word};
use sig_model::decl::{MethodTy, TyParam, Variance};
use sig_model::ty::{Arg, BlockTy, FunTy, Ty};
use std::alloc::Global;

/// The positional parameters of a method or a block, which have no names.
#[derive(Clone, Copy, Debug)]
pub enum Takes {
    Nothing,
    One(CoreTy),
    Two(CoreTy, CoreTy),
    /// One, which may be left out.
    Optional(CoreTy),
}

/// A block that is needed: what it takes and what it gives.
#[derive(Clone, Copy, Debug)]
pub struct Given {
    pub takes: Takes,
    pub gives: CoreTy,
}

/// An overload, its type parameters aside.
#[derive(Clone, Copy, Debug)]
pub struct Overload {
    pub takes: Takes,
    pub block: Option<Given>,
    pub gives: CoreTy,
}

/// An overload with a block.
pub fn with_block(takes: Takes, block_takes: Takes, block_gives: CoreTy, gives: CoreTy) -> Overload
    ensures { result ≡ record { takes = takes; block = Some (record { takes = block_takes; gives = block_gives }); gives = gives } }
{
    let given = Given {
        takes: block_takes,
        gives: block_gives,
    };
    Overload {
        takes,
        block: Some(given),
        gives,
    }
}

/// Adds a positional parameter without a name.
#[tactic(auto, using(sig_model::specs::Plain::plain_types))]
fn add_unnamed(alloc: Global, args: &mut Many<Arg>, ty: CoreTy) -> Result<(), NoMemory>
    ensures { OnOk result (plain_args args.new ≡ append_args (plain_args args.old) (unnamed (one (written ty)))) }
{
    let ty = built(alloc, ty)?;
    args.push(Arg { ty, name: None })
}

/// The parameters that are required.
fn required(alloc: Global, takes: Takes) -> Result<Many<Arg>, NoMemory>
    ensures { IfOk result (λ args. plain_args args ≡ required_of takes) }
{
    let mut args = Many::new(alloc);
    match takes {
        Takes::Nothing | Takes::Optional(_) => {}
        Takes::One(ty) => add_unnamed(alloc, &mut args, ty)?,
        Takes::Two(first, second) => {
            add_unnamed(alloc, &mut args, first)?;
            add_unnamed(alloc, &mut args, second)?;
        }
    }
    Ok(args)
}

/// The parameters that may be left out.
fn optional(alloc: Global, takes: Takes) -> Result<Many<Arg>, NoMemory>
    ensures { IfOk result (λ args. plain_args args ≡ optional_of takes) }
{
    let mut args = Many::new(alloc);
    if let Takes::Optional(ty) = takes {
        add_unnamed(alloc, &mut args, ty)?;
    }
    Ok(args)
}

/// A function of these parameters, this block and this result.
#[tactic(auto, using(sig_model::specs::Plain::plain_types))]
fn function(
    alloc: Global,
    takes: Takes,
    block: Option<Boxed<BlockTy>>,
    outcome: Ty,
) -> Result<FunTy, NoMemory>
    ensures { IfOk result (λ fun. plain_fun fun
        ≡ function_of (required_of takes) (optional_of takes) (plain_block block) (plain_ty outcome)) }
{
    Ok(FunTy {
        required: required(alloc, takes)?,
        optional: optional(alloc, takes)?,
        rest: None,
        trailing: Many::new(alloc),
        keys: Many::new(alloc),
        key_rest: None,
        block,
        result: outcome,
    })
}

/// The block, where there is one.
#[tactic(auto, using(sig_model::specs::Plain::plain_types))]
fn block(alloc: Global, given: Option<Given>) -> Result<Option<Boxed<BlockTy>>, NoMemory>
    ensures { IfOk result (λ block. plain_block block ≡ block_of given) }
{
    let Some(given) = given else {
        return Ok(None);
    };
    let outcome = built(alloc, given.gives)?;
    let fun = function(alloc, given.takes, None, outcome)?;
    Ok(Some(Boxed::new(alloc, BlockTy { needed: true, fun })?))
}

/// A type parameter without variance and bound.
pub fn bare_param(alloc: Global, name: &str) -> Result<TyParam, NoMemory>
    ensures { IfOk result (λ param. plain_param param ≡ bare_param name.now) }
{
    Ok(TyParam {
        name: Word::of(alloc, name)?,
        unchecked: false,
        variance: Variance::Fixed,
        bound: None,
    })
}

/// This overload, with these type parameters.
pub fn method_of(
    alloc: Global,
    params: Many<TyParam>,
    overload: Overload,
) -> Result<MethodTy, NoMemory>
    ensures { IfOk result (λ made. plain_method made ≡ method_of (plain_params params) overload) }
{
    let block = block(alloc, overload.block)?;
    let outcome = built(alloc, overload.gives)?;
    Ok(MethodTy {
        params,
        fun: function(alloc, overload.takes, block, outcome)?,
    })
}
