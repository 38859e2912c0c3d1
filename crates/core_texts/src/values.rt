//! The classes of values that hold no others.

ghost use Rattle.std.specs.Prelude.{◌≡◌, IfOk};
ghost use Rattle.sig_model.specs.PlainDecl.{plain_decl};
ghost use Rattle.core_texts.specs.Values.{symbol_class, integer_class, string_class};

use crate::members::Members;
use crate::overloads::Takes::{Nothing, One};
use crate::overloads::with_block;
use crate::shapes::class;
use crate::types::CoreTy::{Bool, Integer, SelfTy, String, Symbol, Void};
use plain_data::NoMemory;
use sig_model::decl::Decl;
use std::alloc::Global;

/// `class Symbol`
pub fn symbol_class(alloc: Global) -> Result<Decl, NoMemory>
    ensures { IfOk result (λ d. plain_decl d ≡ symbol_class) }
{
    let mut members = Members::new(alloc);
    members.method(508, 533, "length", Nothing, Integer)?;
    class(alloc, 493, 537, "Symbol", members)
}

/// `class Integer`
pub fn integer_class(alloc: Global) -> Result<Decl, NoMemory>
    ensures { IfOk result (λ d. plain_decl d ≡ integer_class) }
{
    let mut members = Members::new(alloc);
    members.method(554, 581, "+", One(Integer), Integer)?;
    members.method(584, 611, "-", One(Integer), Integer)?;
    members.method(614, 641, "*", One(Integer), Integer)?;
    members.method(644, 671, "/", One(Integer), Integer)?;
    members.method(674, 701, "%", One(Integer), Integer)?;
    members.method(704, 725, "-@", Nothing, Integer)?;
    members.method(728, 752, "<", One(Integer), Bool)?;
    members.method(755, 780, "<=", One(Integer), Bool)?;
    members.method(783, 807, ">", One(Integer), Bool)?;
    members.method(810, 835, ">=", One(Integer), Bool)?;
    members.method(838, 867, "<=>", One(Integer), Integer)?;
    members.yields(870, 913, "times", Integer, Void, SelfTy)?;
    let upto = with_block(One(Integer), One(Integer), Void, SelfTy);
    members.overload(916, 965, "upto", upto)?;
    class(alloc, 538, 969, "Integer", members)
}

/// `class String`
pub fn string_class(alloc: Global) -> Result<Decl, NoMemory>
    ensures { IfOk result (λ d. plain_decl d ≡ string_class) }
{
    let mut members = Members::new(alloc);
    members.method(985, 1010, "+", One(String), String)?;
    members.method(1013, 1041, "<=>", One(String), Integer)?;
    members.method(1044, 1069, "length", Nothing, Integer)?;
    members.method(1072, 1094, "empty?", Nothing, Bool)?;
    members.method(1097, 1121, "to_sym", Nothing, Symbol)?;
    class(alloc, 970, 1125, "String", members)
}
