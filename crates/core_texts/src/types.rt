//! The types that the core signature writes.

ghost use Rattle.std.specs.Prelude.{◌≡◌, IfOk};
ghost use Rattle.sig_model.specs.PlainTy.{plain_ty};
ghost use Rattle.core_texts.specs.Types.{optional, array_of, pair_of, printable};
ghost use Rattle.core_texts.specs.Written.{written};
ghost use Rattle.sig_model.specs.Built.{named};

use plain_data::{Boxed, Many, NoMemory, Word};
use sig_model::build::{base_type, class_name, named_type};
use sig_model::ty::{BaseTy, Ty};
use std::alloc::Global;

/// A type that the core signature writes.
#[derive(Clone, Copy, Debug)]
pub enum CoreTy {
    Boolish,
    Integer,
    Module,
    String,
    Symbol,
    A,
    E,
    K,
    U,
    V,
    Bool,
    Nil,
    SelfTy,
    Top,
    Void,
    /// `E?`
    OptionalE,
    /// `V?`
    OptionalV,
    /// `Array[top]?`
    OptionalTops,
    /// `Array[E]`
    ArrayOfE,
    /// `Array[K]`
    ArrayOfK,
    /// `Array[U]`
    ArrayOfU,
    /// `Array[V]`
    ArrayOfV,
    /// `Array[[K, V]]`
    ArrayOfPairs,
    /// `[K, V]`
    Pair,
    /// `String | Integer | Symbol | bool | nil`
    Printable,
}

/// The type of this name, without arguments.
pub fn called(alloc: Global, name: &str) -> Result<Ty, NoMemory>
    ensures { IfOk result (λ ty. plain_ty ty ≡ named name.now) }
{
    named_type(alloc, Word::of(alloc, name)?)
}

/// `T?`
#[tactic(auto, using(sig_model::specs::Plain::plain_types))]
fn optional(alloc: Global, ty: Ty) -> Result<Ty, NoMemory>
    ensures { IfOk result (λ made. plain_ty made ≡ optional (plain_ty ty)) }
{
    Ok(Ty::Opt(Boxed::new(alloc, ty)?))
}

/// `Array[T]`
#[tactic(auto, using(sig_model::specs::Plain::plain_types))]
fn array_of(alloc: Global, ty: Ty) -> Result<Ty, NoMemory>
    ensures { IfOk result (λ made. plain_ty made ≡ array_of (plain_ty ty)) }
{
    let name = class_name(alloc, Word::of(alloc, "Array")?)?;
    let mut args = Many::new(alloc);
    args.push(ty)?;
    Ok(Ty::Name { name, args })
}

/// `[T, U]`
#[tactic(auto, using(sig_model::specs::Plain::plain_types))]
fn pair_of(alloc: Global, first: Ty, second: Ty) -> Result<Ty, NoMemory>
    ensures { IfOk result (λ made. plain_ty made ≡ pair_of (plain_ty first) (plain_ty second)) }
{
    let mut parts = Many::new(alloc);
    parts.push(first)?;
    parts.push(second)?;
    Ok(Ty::Tuple(parts))
}

/// `String | Integer | Symbol | bool | nil`
#[tactic(auto, using(sig_model::specs::Plain::plain_types))]
fn printable(alloc: Global) -> Result<Ty, NoMemory>
    ensures { IfOk result (λ ty. plain_ty ty ≡ printable) }
{
    let mut parts = Many::new(alloc);
    parts.push(called(alloc, "String")?)?;
    parts.push(called(alloc, "Integer")?)?;
    parts.push(called(alloc, "Symbol")?)?;
    parts.push(base_type(BaseTy::Bool))?;
    parts.push(base_type(BaseTy::Nil))?;
    Ok(Ty::Union(parts))
}

/// `[K, V]`
fn key_and_value(alloc: Global) -> Result<Ty, NoMemory>
    ensures { IfOk result (λ ty. plain_ty ty ≡ written CoreTy.Pair) }
{
    pair_of(alloc, called(alloc, "K")?, called(alloc, "V")?)
}

/// This type.
pub fn built(alloc: Global, ty: CoreTy) -> Result<Ty, NoMemory>
    ensures { IfOk result (λ made. plain_ty made ≡ written ty) }
{
    match ty {
        CoreTy::Boolish => called(alloc, "boolish"),
        CoreTy::Integer => called(alloc, "Integer"),
        CoreTy::Module => called(alloc, "Module"),
        CoreTy::String => called(alloc, "String"),
        CoreTy::Symbol => called(alloc, "Symbol"),
        CoreTy::A => called(alloc, "A"),
        CoreTy::E => called(alloc, "E"),
        CoreTy::K => called(alloc, "K"),
        CoreTy::U => called(alloc, "U"),
        CoreTy::V => called(alloc, "V"),
        CoreTy::Bool => Ok(base_type(BaseTy::Bool)),
        CoreTy::Nil => Ok(base_type(BaseTy::Nil)),
        CoreTy::SelfTy => Ok(base_type(BaseTy::SelfTy)),
        CoreTy::Top => Ok(base_type(BaseTy::Top)),
        CoreTy::Void => Ok(base_type(BaseTy::Void)),
        CoreTy::OptionalE => optional(alloc, called(alloc, "E")?),
        CoreTy::OptionalV => optional(alloc, called(alloc, "V")?),
        CoreTy::OptionalTops => optional(alloc, array_of(alloc, base_type(BaseTy::Top))?),
        CoreTy::ArrayOfE => array_of(alloc, called(alloc, "E")?),
        CoreTy::ArrayOfK => array_of(alloc, called(alloc, "K")?),
        CoreTy::ArrayOfU => array_of(alloc, called(alloc, "U")?),
        CoreTy::ArrayOfV => array_of(alloc, called(alloc, "V")?),
        CoreTy::ArrayOfPairs => array_of(alloc, key_and_value(alloc)?),
        CoreTy::Pair => key_and_value(alloc),
        CoreTy::Printable => printable(alloc),
    }
}
