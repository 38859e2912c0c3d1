//! The list of the declarations of the core signature.
#![tactic(auto, using(sig_model::specs::Plain::plain_decls_of))]

ghost use Rattle.std.specs.Prelude.{◌≡◌, ◌∷◌, [], OnOk, None, Some};
ghost use Rattle.sig_model.specs.PlainDecl.{plain_decl, plain_decls, no_parts, no_decls, append_decls};
ghost use Rattle.sig_model.specs.Built.{named};
ghost use Rattle.core_texts.specs.Shapes.{class_at, listed};

use crate::members::Members;
use crate::shapes::{class, class_below};
use plain_data::{Many, NoMemory};
use sig_model::decl::Decl;
use std::alloc::Global;

/// The declarations, as far as they are written. Places are in bytes of the text.
#[derive(Drop)]
pub struct Declarations {
    alloc: Global,
    pub decls: Many<Decl>,
}

impl Declarations {
    /// No declaration yet. Takes no memory.
    pub fn new(alloc: Global) -> Declarations
        ensures { plain_decls result.decls ≡ no_decls }
    {
        Declarations {
            alloc,
            decls: Many::new(alloc),
        }
    }

    /// Adds a declaration.
    pub fn add(&mut self, decl: Decl) -> Result<(), NoMemory>
        ensures { OnOk result (plain_decls self.new.decls
            ≡ append_decls (plain_decls self.old.decls) (listed (plain_decl decl ∷ []))) }
    {
        self.decls.push(decl)
    }

    /// Adds the declarations of another list behind those of this one.
    pub fn append(&mut self, more: Declarations) -> Result<(), NoMemory>
        ensures { OnOk result (plain_decls self.new.decls
            ≡ append_decls (plain_decls self.old.decls) (plain_decls more.decls)) }
    {
        for decl in more.decls.into_vec() {
            self.decls.push(decl)?;
        }
        Ok(())
    }

    /// Adds a class without members, type parameters and a stated superclass.
    pub fn empty(&mut self, start: u32, end: u32, name: &str) -> Result<(), NoMemory>
        ensures { OnOk result (plain_decls self.new.decls
            ≡ append_decls (plain_decls self.old.decls) (listed (class_at start end name.now [] None no_parts ∷ []))) }
    {
        let members = Members::new(self.alloc);
        self.add(class(self.alloc, start, end, name, members)?)
    }

    /// Adds a class without members and type parameters, below the class of the name `parent`.
    pub fn empty_below(
        &mut self,
        start: u32,
        end: u32,
        name: &str,
        parent: &str,
    ) -> Result<(), NoMemory>
        ensures { OnOk result (plain_decls self.new.decls
            ≡ append_decls (plain_decls self.old.decls) (listed (class_at start end name.now [] (Some (named parent.now)) no_parts ∷ []))) }
    {
        let members = Members::new(self.alloc);
        self.add(class_below(self.alloc, start, end, name, parent, members)?)
    }
}
