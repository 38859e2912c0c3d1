//! The declarations of the core signature.

ghost use Rattle.std.specs.Prelude.{◌≡◌, IfOk};
ghost use Rattle.sig_model.specs.PlainDecl.{plain_decls};
ghost use Rattle.core_texts.specs.CoreDeclarations.{roots, values, errors, core_declarations};

use crate::collections::{array_class, hash_class};
use crate::declarations::Declarations;
use crate::errors::exception;
use crate::objects::{basic_object, kernel, object};
use crate::shapes::alias;
use crate::types::CoreTy::Top;
use crate::values::{integer_class, string_class, symbol_class};
use plain_data::{Many, NoMemory};
use sig_model::decl::Decl;
use std::alloc::Global;

/// The alias and the classes at the front: what every object has, and the classes without members.
fn roots(alloc: Global) -> Result<Declarations, NoMemory>
    ensures { IfOk result (λ ds. plain_decls ds.decls ≡ roots) }
{
    let mut decls = Declarations::new(alloc);
    decls.add(alias(alloc, 0, 18, "boolish", Top)?)?;
    decls.add(basic_object(alloc)?)?;
    decls.add(kernel(alloc)?)?;
    decls.add(object(alloc)?)?;
    decls.empty(376, 392, "Module")?;
    decls.empty_below(393, 417, "Class", "Module")?;
    decls.empty(418, 436, "NilClass")?;
    decls.empty(437, 456, "TrueClass")?;
    decls.empty(457, 477, "FalseClass")?;
    decls.empty(478, 492, "Proc")?;
    Ok(decls)
}

/// The classes of values with methods of their own.
fn values(alloc: Global) -> Result<Declarations, NoMemory>
    ensures { IfOk result (λ ds. plain_decls ds.decls ≡ values) }
{
    let mut decls = Declarations::new(alloc);
    decls.add(symbol_class(alloc)?)?;
    decls.add(integer_class(alloc)?)?;
    decls.add(string_class(alloc)?)?;
    decls.add(array_class(alloc)?)?;
    decls.add(hash_class(alloc)?)?;
    Ok(decls)
}

/// The classes of errors.
fn errors(alloc: Global) -> Result<Declarations, NoMemory>
    ensures { IfOk result (λ ds. plain_decls ds.decls ≡ errors) }
{
    let mut decls = Declarations::new(alloc);
    decls.add(exception(alloc)?)?;
    decls.empty_below(2251, 2286, "StandardError", "Exception")?;
    decls.empty_below(2287, 2318, "TestError", "Exception")?;
    decls.empty_below(2319, 2358, "ArgumentError", "StandardError")?;
    decls.empty_below(2359, 2394, "NameError", "StandardError")?;
    decls.empty_below(2395, 2431, "IndexError", "StandardError")?;
    decls.empty_below(2432, 2468, "RangeError", "StandardError")?;
    decls.empty_below(2469, 2512, "ZeroDivisionError", "StandardError")?;
    decls.empty_below(2513, 2553, "LocalJumpError", "StandardError")?;
    decls.empty_below(2554, 2589, "NoMethodError", "NameError")?;
    decls.empty_below(2590, 2621, "KeyError", "IndexError")?;
    Ok(decls)
}

/// The declarations that `CORE_RBS` spells, in its order, with their places in it; its file has the
/// number 0.
pub fn core_signature(alloc: Global) -> Result<Many<Decl>, NoMemory>
    ensures { IfOk result (λ ds. plain_decls ds ≡ core_declarations) }
{
    let mut decls = roots(alloc)?;
    decls.append(values(alloc)?)?;
    decls.append(errors(alloc)?)?;
    Ok(decls.decls)
}
