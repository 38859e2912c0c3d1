//! What every object has.

ghost use Rattle.std.specs.Prelude.{◌≡◌, IfOk};
ghost use Rattle.sig_model.specs.PlainDecl.{plain_decl};
ghost use Rattle.core_texts.specs.Objects.{basic_object, kernel, object};

use crate::members::Members;
use crate::overloads::Takes::{Nothing, One, Optional};
use crate::shapes::{class, class_below, module_for};
use crate::types::CoreTy::{Bool, Module, Nil, Printable, SelfTy, String, Top, Void};
use plain_data::NoMemory;
use sig_model::decl::Decl;
use std::alloc::Global;

/// `class BasicObject`
pub fn basic_object(alloc: Global) -> Result<Decl, NoMemory>
    ensures { IfOk result (λ d. plain_decl d ≡ basic_object) }
{
    let mut members = Members::new(alloc);
    members.method(39, 65, "initialize", Nothing, Void)?;
    members.method(68, 89, "==", One(Top), Bool)?;
    members.method(92, 117, "equal?", One(Top), Bool)?;
    class(alloc, 19, 121, "BasicObject", members)
}

/// `module Kernel : BasicObject`
pub fn kernel(alloc: Global) -> Result<Decl, NoMemory>
    ensures { IfOk result (λ d. plain_decl d ≡ kernel) }
{
    let mut members = Members::new(alloc);
    members.method(152, 172, "nil?", Nothing, Bool)?;
    members.method(175, 202, "is_a?", One(Module), Bool)?;
    members.method(205, 227, "to_s", Nothing, String)?;
    members.method(230, 252, "itself", Nothing, SelfTy)?;
    members.private(255, 262)?;
    members.method(265, 323, "puts", Optional(Printable), Nil)?;
    module_for(alloc, 122, 327, "Kernel", "BasicObject", members)
}

/// `class Object < BasicObject`
pub fn object(alloc: Global) -> Result<Decl, NoMemory>
    ensures { IfOk result (λ d. plain_decl d ≡ object) }
{
    let mut members = Members::new(alloc);
    members.include(357, 371, "Kernel")?;
    class_below(alloc, 328, 375, "Object", "BasicObject", members)
}
