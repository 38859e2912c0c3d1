//! The classes of values that hold others.

ghost use Rattle.std.specs.Prelude.{◌≡◌, IfOk, OnOk};
ghost use Rattle.sig_model.specs.PlainDecl.{plain_decl, plain_parts, append_parts};
ghost use Rattle.core_texts.specs.Collections.{array_elements, array_blocks, array_class, hash_class};

use crate::members::Members;
use crate::overloads::Takes::{Nothing, One, Two};
use crate::overloads::with_block;
use crate::shapes::{generic_class, unchecked_out};
use crate::types::CoreTy::{
    A, ArrayOfE, ArrayOfK, ArrayOfPairs, ArrayOfU, ArrayOfV, Bool, Boolish, E, Integer, K,
    OptionalE, OptionalTops, OptionalV, Pair, SelfTy, Top, U, V, Void,
};
use plain_data::{Many, NoMemory};
use sig_model::decl::Decl;
use std::alloc::Global;

/// The members of an array that take no block.
fn array_elements(alloc: Global) -> Result<Members, NoMemory>
    ensures { IfOk result (λ members. plain_parts members.parts ≡ array_elements) }
{
    let mut members = Members::new(alloc);
    members.method(1157, 1182, "length", Nothing, Integer)?;
    members.method(1185, 1207, "empty?", Nothing, Bool)?;
    members.method(1210, 1233, "[]", One(Integer), OptionalE)?;
    members.method(1236, 1261, "fetch", One(Integer), E)?;
    members.method(1264, 1285, "push", One(E), SelfTy)?;
    members.method(1288, 1307, "<<", One(E), SelfTy)?;
    members.method(1310, 1327, "pop", Nothing, OptionalE)?;
    members.method(1330, 1349, "shift", Nothing, OptionalE)?;
    members.method(1352, 1381, "+", One(ArrayOfE), ArrayOfE)?;
    members.method(1384, 1405, "==", One(Top), Bool)?;
    members.method(1408, 1435, "include?", One(Top), Bool)?;
    Ok(members)
}

/// Adds the members of an array that take a block.
#[tactic(auto, using(sig_model::specs::Plain::plain_decls_of))]
fn add_array_blocks(members: &mut Members) -> Result<(), NoMemory>
    ensures { OnOk result (plain_parts members.new.parts ≡ append_parts (plain_parts members.old.parts) array_blocks) }
{
    members.yields(1438, 1474, "each", E, Void, SelfTy)?;
    let map = with_block(Nothing, One(E), U, ArrayOfU);
    members.generic(1477, 1517, "map", "U", map)?;
    members.yields(1520, 1565, "select", E, Boolish, ArrayOfE)?;
    members.yields(1568, 1607, "any?", E, Boolish, Bool)?;
    members.yields(1610, 1647, "find", E, Boolish, OptionalE)?;
    let inject = with_block(One(A), Two(A, E), A, A);
    members.generic(1650, 1690, "inject", "A", inject)?;
    Ok(())
}

/// `class Array[unchecked out E]`
pub fn array_class(alloc: Global) -> Result<Decl, NoMemory>
    ensures { IfOk result (λ d. plain_decl d ≡ array_class) }
{
    let mut params = Many::new(alloc);
    params.push(unchecked_out(alloc, "E")?)?;
    let mut members = array_elements(alloc)?;
    add_array_blocks(&mut members)?;
    members.private(1693, 1700)?;
    members.method(1703, 1735, "__copy", One(Top), OptionalTops)?;
    generic_class(alloc, 1126, 1739, "Array", params, members)
}

/// `class Hash[unchecked out K, unchecked out V]`
pub fn hash_class(alloc: Global) -> Result<Decl, NoMemory>
    ensures { IfOk result (λ d. plain_decl d ≡ hash_class) }
{
    let mut params = Many::new(alloc);
    params.push(unchecked_out(alloc, "K")?)?;
    params.push(unchecked_out(alloc, "V")?)?;
    let mut members = Members::new(alloc);
    members.method(1787, 1812, "length", Nothing, Integer)?;
    members.method(1815, 1837, "empty?", Nothing, Bool)?;
    members.method(1840, 1857, "[]", One(K), OptionalV)?;
    members.method(1860, 1880, "[]=", Two(K, V), V)?;
    members.method(1883, 1902, "fetch", One(K), V)?;
    members.method(1905, 1926, "key?", One(K), Bool)?;
    members.method(1929, 1950, "delete", One(K), OptionalV)?;
    members.method(1953, 1977, "keys", Nothing, ArrayOfK)?;
    members.method(1980, 2006, "values", Nothing, ArrayOfV)?;
    members.yields(2009, 2050, "each", Pair, Void, SelfTy)?;
    let map = with_block(Nothing, One(Pair), U, ArrayOfU);
    members.generic(2053, 2098, "map", "U", map)?;
    members.private(2101, 2108)?;
    members.method(2111, 2143, "__pairs", Nothing, ArrayOfPairs)?;
    generic_class(alloc, 1740, 2147, "Hash", params, members)
}
