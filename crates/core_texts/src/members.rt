//! The members of the classes of the core signature.

ghost use Rattle.std.specs.Prelude.{◌≡◌, ◌∷◌, [], OnOk, None};
ghost use Rattle.sig_model.specs.PlainMember.{plain_member, plain_params};
ghost use Rattle.sig_model.specs.PlainDecl.{plain_parts, no_parts, append_parts};
ghost use Rattle.core_texts.specs.Shapes.{plain_param as bare_param, yields, member_at, method_at, variable_at, include_at, private_at};
ghost use Rattle.sig_model.specs.Built.{named};
ghost use Rattle.core_texts.specs.Types.{one};
ghost use Rattle.core_texts.specs.Written.{written, method_of};

use crate::overloads::{Overload, Takes, bare_param, method_of, with_block};
use crate::places::span;
use crate::types::{CoreTy, built, called};
use plain_data::{Many, NoMemory, Word};
use sig_model::build::empty_notes;
use sig_model::decl::{Member, MixKind, Part, TyParam, Vis};
use std::alloc::Global;

/// The members of a class, as far as they are written. Places are in bytes of the text.
#[derive(Drop)]
pub struct Members {
    alloc: Global,
    pub parts: Many<Part>,
}

impl Members {
    /// No member yet. Takes no memory.
    pub fn new(alloc: Global) -> Members
        ensures { plain_parts result.parts ≡ no_parts }
    {
        Members {
            alloc,
            parts: Many::new(alloc),
        }
    }

    #[tactic(auto, using(sig_model::specs::Plain::plain_decls_of))]
    fn add(&mut self, start: u32, end: u32, member: Member) -> Result<(), NoMemory>
        ensures { OnOk result (plain_parts self.new.parts
            ≡ append_parts (plain_parts self.old.parts) (member_at start end (plain_member member))) }
    {
        let notes = empty_notes(self.alloc);
        self.parts.push(Part::Member {
            place: span(start, end),
            notes,
            member,
        })
    }

    fn add_method(
        &mut self,
        start: u32,
        end: u32,
        name: &str,
        params: Many<TyParam>,
        overload: Overload,
    ) -> Result<(), NoMemory>
        ensures { OnOk result (plain_parts self.new.parts
            ≡ append_parts (plain_parts self.old.parts) (method_at start end name.now (method_of (plain_params params) overload))) }
    {
        let mut overloads = Many::new(self.alloc);
        overloads.push(method_of(self.alloc, params, overload)?)?;
        let name = Word::of(self.alloc, name)?;
        self.add(
            start,
            end,
            Member::Method {
                vis: None,
                single: false,
                name,
                overloads,
            },
        )
    }

    /// Adds an instance method without a block.
    pub fn method(
        &mut self,
        start: u32,
        end: u32,
        name: &str,
        takes: Takes,
        gives: CoreTy,
    ) -> Result<(), NoMemory>
        ensures { OnOk result (plain_parts self.new.parts ≡ append_parts (plain_parts self.old.parts)
            (method_at start end name.now (method_of [] (record { takes = takes; block = None; gives = gives })))) }
    {
        let overload = Overload {
            takes,
            block: None,
            gives,
        };
        self.overload(start, end, name, overload)
    }

    /// Adds an instance method whose block takes one value, and which takes nothing else.
    pub fn yields(
        &mut self,
        start: u32,
        end: u32,
        name: &str,
        block_takes: CoreTy,
        block_gives: CoreTy,
        gives: CoreTy,
    ) -> Result<(), NoMemory>
        ensures { OnOk result (plain_parts self.new.parts ≡ append_parts (plain_parts self.old.parts)
            (method_at start end name.now (yields (one (written block_takes)) (written block_gives) (written gives)))) }
    {
        let overload = with_block(Takes::Nothing, Takes::One(block_takes), block_gives, gives);
        self.overload(start, end, name, overload)
    }

    /// Adds an instance method of this overload, without type parameters.
    pub fn overload(
        &mut self,
        start: u32,
        end: u32,
        name: &str,
        overload: Overload,
    ) -> Result<(), NoMemory>
        ensures { OnOk result (plain_parts self.new.parts
            ≡ append_parts (plain_parts self.old.parts) (method_at start end name.now (method_of [] overload))) }
    {
        let params = Many::new(self.alloc);
        self.add_method(start, end, name, params, overload)
    }

    /// Adds an instance method of this overload, with a type parameter.
    pub fn generic(
        &mut self,
        start: u32,
        end: u32,
        name: &str,
        param: &str,
        overload: Overload,
    ) -> Result<(), NoMemory>
        ensures { OnOk result (plain_parts self.new.parts
            ≡ append_parts (plain_parts self.old.parts) (method_at start end name.now (method_of (bare_param param.now ∷ []) overload))) }
    {
        let mut params = Many::new(self.alloc);
        params.push(bare_param(self.alloc, param)?)?;
        self.add_method(start, end, name, params, overload)
    }

    /// Adds an instance variable.
    pub fn variable(&mut self, start: u32, end: u32, name: &str, ty: CoreTy) -> Result<(), NoMemory>
        ensures { OnOk result (plain_parts self.new.parts
            ≡ append_parts (plain_parts self.old.parts) (variable_at start end name.now (written ty))) }
    {
        let member = Member::Ivar {
            single: false,
            name: Word::of(self.alloc, name)?,
            ty: built(self.alloc, ty)?,
        };
        self.add(start, end, member)
    }

    /// Adds an `include` of the module of this name.
    pub fn include(&mut self, start: u32, end: u32, name: &str) -> Result<(), NoMemory>
        ensures { OnOk result (plain_parts self.new.parts
            ≡ append_parts (plain_parts self.old.parts) (include_at start end (named name.now))) }
    {
        let member = Member::Mixin {
            kind: MixKind::Include,
            ty: called(self.alloc, name)?,
        };
        self.add(start, end, member)
    }

    /// Adds a `private` that stands alone.
    pub fn private(&mut self, start: u32, end: u32) -> Result<(), NoMemory>
        ensures { OnOk result (plain_parts self.new.parts
            ≡ append_parts (plain_parts self.old.parts) (private_at start end)) }
    {
        self.add(start, end, Member::Section(Vis::Private))
    }
}
