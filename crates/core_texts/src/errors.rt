//! The classes of errors.

ghost use Rattle.std.specs.Prelude.{◌≡◌, IfOk};
ghost use Rattle.sig_model.specs.PlainDecl.{plain_decl};
ghost use Rattle.core_texts.specs.Errors.{exception};

use crate::members::Members;
use crate::overloads::Takes::{Nothing, Optional};
use crate::shapes::class;
use crate::types::CoreTy::{String, Void};
use plain_data::NoMemory;
use sig_model::decl::Decl;
use std::alloc::Global;

/// `class Exception`
pub fn exception(alloc: Global) -> Result<Decl, NoMemory>
    ensures { IfOk result (λ d. plain_decl d ≡ exception) }
{
    let mut members = Members::new(alloc);
    members.variable(2166, 2182, "message", String)?;
    members.method(2185, 2218, "initialize", Optional(String), Void)?;
    members.method(2221, 2246, "message", Nothing, String)?;
    class(alloc, 2148, 2250, "Exception", members)
}
