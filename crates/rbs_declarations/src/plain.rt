//! Lists of the parts of declarations, which contracts see as plain data.
#![tactic(auto, using(crate::proofs::Pushed::pushed))]

ghost use Rattle.std.specs.Prelude.{◌≡◌, [], ◌∷◌, ◌++◌, IfOk, OnOk};
ghost use Rattle.sig_model.specs.PlainTy.{plain_fun};
ghost use Rattle.sig_model.specs.PlainMember.{plain_param, plain_params, plain_methods, plain_member};
ghost use Rattle.sig_model.specs.PlainDecl as decl;
ghost use Rattle.sig_model.specs.PlainDecl.{plain_decl, plain_decls, plain_parts};
ghost use Rattle.rbs_types.specs.Parts.{function_with};
ghost use Rattle.rbs_declarations.specs.Grammar.{is_new_param, and_inner, and_member, and_decl};

use names::NamedList;
use plain_data::{Many, NoMemory, Word};
use rbs_types::{FunctionHead, Tall};
use sig_model::decl::{Decl, Member, MethodTy, Notes, Part, TyParam};
use sig_model::place::Place;
use sig_model::ty::FunTy;
use std::alloc::Global;
use std::marker::Model;

/// Type parameters.
#[derive(Drop)]
pub struct Params {
    items: NamedList<TyParam>,
}

impl Model for Params {
    ghost use Rattle.std.specs.Prelude.{◌≡◌, List};
    ghost use Rattle.std.specs.Coded.{codes, code_by};
    ghost use Rattle.sig_model.specs.declared.decl.TyParam.{TyParam};
    ghost use Rattle.sig_model.specs.contracts.ty.Ty as e;
    ghost use Rattle.sig_model.specs.PlainMember.{PlainParam, plain_params};
    ghost use Rattle.rbs_declarations.specs.Twins.{params_of, plain_params_of};

    ghost Value = { List PlainParam };

    ghost coded = { code_by (List TyParam) (Prim.hlevel (codes, e.the_row.coded)) params_of plain_params plain_params_of };

    ghost use Rattle.sig_model.specs.PlainMember.{plain_params};

    ghost view = { λ m. plain_params m.items };
}

/// Overloads of a method.
#[derive(Drop)]
pub struct Methods {
    items: Many<MethodTy>,
}

impl Model for Methods {
    ghost use Rattle.std.specs.Prelude.{◌≡◌, List};
    ghost use Rattle.std.specs.Coded.{codes, code_by};
    ghost use Rattle.sig_model.specs.declared.decl.TyParam.{TyParam};
    ghost use Rattle.sig_model.specs.declared.ty.Ty.{Ty};
    ghost use Rattle.sig_model.specs.contracts.ty.Ty as e;
    ghost use Rattle.sig_model.specs.PlainMember.{PlainMethod};
    ghost use Rattle.rbs_declarations.specs.Twins.{method_pairs, from_method_pairs, from_method_pairs_of};

    ghost Value = { List PlainMethod };

    ghost coded = { code_by (List (List TyParam × Ty)) (Prim.hlevel (codes, e.the_row.coded)) method_pairs from_method_pairs from_method_pairs_of };

    ghost use Rattle.sig_model.specs.PlainMember.{plain_methods};

    ghost view = { λ m. plain_methods m.items };
}

/// Parts of a declaration.
#[derive(Drop)]
pub struct Parts {
    items: Many<Part>,
}

impl Model for Parts {
    ghost use Rattle.std.specs.Prelude.{◌≡◌, List};
    ghost use Rattle.std.specs.Coded.{codes, code_by};
    ghost use Rattle.sig_model.specs.declared.decl.DeclBody.{DeclBody};
    ghost use Rattle.sig_model.specs.contracts.ty.Ty as e;
    ghost use Rattle.sig_model.specs.contracts.decl.DeclBody as d;
    ghost use Rattle.sig_model.specs.PlainDecl.{PlainParts};
    ghost use Rattle.rbs_declarations.specs.Twins.{parts_body, from_parts_body, from_parts_body_of};

    ghost Value = { PlainParts };

    ghost coded = { code_by DeclBody (Prim.hlevel (codes, e.the_row.coded, d.the_row.coded)) parts_body from_parts_body from_parts_body_of };

    ghost use Rattle.sig_model.specs.PlainDecl.{plain_parts};

    ghost view = { λ m. plain_parts m.items };
}

/// Declarations of a file.
#[derive(Drop)]
pub struct Decls {
    items: Many<Decl>,
}

impl Model for Decls {
    ghost use Rattle.std.specs.Prelude.{◌≡◌, List};
    ghost use Rattle.std.specs.Coded.{codes, code_by};
    ghost use Rattle.sig_model.specs.declared.decl.Decl.{Decl};
    ghost use Rattle.sig_model.specs.contracts.ty.Ty as e;
    ghost use Rattle.sig_model.specs.contracts.decl.DeclBody as d;
    ghost use Rattle.sig_model.specs.PlainDecl.{PlainDecls, plain_decls};
    ghost use Rattle.rbs_declarations.specs.Twins.{decls_of, plain_decls_of};

    ghost Value = { PlainDecls };

    ghost coded = { code_by (List Decl) (Prim.hlevel (codes, e.the_row.coded, d.the_row.coded)) decls_of plain_decls plain_decls_of };

    ghost use Rattle.sig_model.specs.PlainDecl.{plain_decls};

    ghost view = { λ m. plain_decls m.items };
}

impl Params {
    /// No parameter. Takes no memory.
    pub fn new(alloc: Global) -> Params
        ensures { result ≡ [] }
    {
        Params {
            items: NamedList::new(alloc),
        }
    }

    /// Adds one more at the end.
    pub fn add(&mut self, param: TyParam) -> Result<(), NoMemory>
        ensures { OnOk result (self.new ≡ self.old ++ plain_param param ∷ []) }
    {
        self.items.push(param)
    }

    /// The parameters, and one more.
    pub fn with(self, param: TyParam) -> Result<Params, NoMemory>
        ensures { IfOk result (λ ps. ps ≡ self ++ plain_param param ∷ []) }
    {
        let mut params = self;
        params.add(param)?;
        Ok(params)
    }

    /// No parameter has this name.
    #[tactic(auto, using(crate::proofs::ParamNames::new_param))]
    pub fn is_new(&self, name: &Word) -> bool
        ensures { result ≡ is_new_param name.now self.now }
    {
        self.items.is_new(name)
    }

    /// The parameters, moved.
    pub fn into_items(self) -> Many<TyParam>
        ensures { plain_params result ≡ self }
    {
        let Params { items } = self;
        items.into_items()
    }
}

impl Methods {
    /// No overload. Takes no memory.
    pub fn new(alloc: Global) -> Methods
        ensures { result ≡ [] }
    {
        Methods {
            items: Many::new(alloc),
        }
    }

    /// Adds one more: the function with this head and this result.
    pub fn add(&mut self, params: Params, head: FunctionHead, outcome: Tall) -> Result<(), NoMemory>
        ensures { OnOk result (self.new ≡ self.old ++ record { params = params; fun = function_with head outcome } ∷ []) }
    {
        self.items.push(MethodTy {
            params: params.into_items(),
            fun: head.with_result(outcome),
        })
    }

    /// The overloads, and one more.
    pub fn with(self, params: Params, fun: FunTy) -> Result<Methods, NoMemory>
        ensures { IfOk result (λ ms. ms ≡ self ++ record { params = params; fun = plain_fun fun } ∷ []) }
    {
        let Methods { mut items } = self;
        let params = params.into_items();
        items.push(MethodTy { params, fun })?;
        Ok(Methods { items })
    }

    /// The overloads, moved.
    pub fn into_items(self) -> Many<MethodTy>
        ensures { plain_methods result ≡ self }
    {
        let Methods { items } = self;
        items
    }
}

impl Parts {
    /// No part. Takes no memory.
    pub fn new(alloc: Global) -> Parts
        ensures { result ≡ decl.no_parts }
    {
        Parts {
            items: Many::new(alloc),
        }
    }

    /// Adds one more declaration at the end.
    pub fn add_inner(&mut self, inner: Decl) -> Result<(), NoMemory>
        ensures { OnOk result (self.new ≡ and_inner self.old (plain_decl inner)) }
    {
        self.items.push(Part::Inner(inner))?;
        Ok(())
    }

    /// Adds one more member at the end.
    pub fn add_member(&mut self, place: Place, notes: Notes, member: Member) -> Result<(), NoMemory>
        ensures { OnOk result (self.new ≡ and_member self.old place notes (plain_member member)) }
    {
        self.items.push(Part::Member {
            place,
            notes,
            member,
        })?;
        Ok(())
    }

    /// The parts, and one more declaration.
    pub fn with_inner(self, inner: Decl) -> Result<Parts, NoMemory>
        ensures { IfOk result (λ ps. ps ≡ and_inner self (plain_decl inner)) }
    {
        let mut parts = self;
        parts.add_inner(inner)?;
        Ok(parts)
    }

    /// The parts, and one more member.
    pub fn with_member(self, place: Place, notes: Notes, member: Member) -> Result<Parts, NoMemory>
        ensures { IfOk result (λ ps. ps ≡ and_member self place notes (plain_member member)) }
    {
        let mut parts = self;
        parts.add_member(place, notes, member)?;
        Ok(parts)
    }

    /// The parts, moved.
    pub fn into_items(self) -> Many<Part>
        ensures { plain_parts result ≡ self }
    {
        let Parts { items } = self;
        items
    }
}

impl Decls {
    /// No declaration. Takes no memory.
    pub fn new(alloc: Global) -> Decls
        ensures { result ≡ decl.no_decls }
    {
        Decls {
            items: Many::new(alloc),
        }
    }

    /// Adds one more at the end.
    pub fn add(&mut self, last: Decl) -> Result<(), NoMemory>
        ensures { OnOk result (self.new ≡ and_decl self.old (plain_decl last)) }
    {
        self.items.push(last)?;
        Ok(())
    }

    /// The declarations, and one more.
    pub fn with(self, last: Decl) -> Result<Decls, NoMemory>
        ensures { IfOk result (λ ds. ds ≡ and_decl self (plain_decl last)) }
    {
        let mut decls = self;
        decls.add(last)?;
        Ok(decls)
    }

    /// The declarations, moved.
    pub fn into_items(self) -> Many<Decl>
        ensures { plain_decls result ≡ self }
    {
        let Decls { items } = self;
        items
    }
}
