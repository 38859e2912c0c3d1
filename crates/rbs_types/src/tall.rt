//! Types and lists of types whose heights are known.
//!
//! Heights are counted up to [`MOST`](crate::tallest::MOST): what is higher counts as that high, which is past every limit.
#![tactic(auto, using(crate::proofs::Caps::tall_types))]

ghost use Rattle.std.specs.Prelude.{◌≡◌, Option, Some, None, pos, IfOk, OnOk, MatchOption};
ghost use Rattle.sig_model.specs.PlainTy as plain;
ghost use Rattle.sig_model.specs.PlainTy.{plain_ty, plain_tys, plain_fun};
ghost use Rattle.sig_model.specs.Height.{height, tallest, tallest_key, tallest_arg, rest_height, block_height, fun_height};
ghost use Rattle.rbs_types.specs.Capped.{capped};
ghost use Rattle.rbs_types.specs.Plains.{and_ty, and_key, and_arg, is_new, no_ty, no_key, no_arg, no_rest_yet};
ghost use Rattle.rbs_types.specs.Parts.{function_of, function_in};

use crate::state::{Listed, Parameters};
use crate::tallest::above;
use names::NamedList;
use plain_data::{Boxed, Many, NoMemory, Word};
use sig_model::ty::{Arg, BaseTy, BlockTy, FunTy, RecKey, Ty, TypeName};
use std::alloc::Global;
use std::marker::Model;

/// A type with its height. Contracts see it as the plain type.
#[derive(Drop)]
pub struct Tall {
    ty: Ty,
    levels: u32,
}

impl Model for Tall {
    ghost use Rattle.std.specs.Prelude.{◌≡◌, List, Option};
    ghost use Rattle.std.specs.Coded.{codes, code_by, coded_list, coded_option};
    ghost use Rattle.sig_model.specs.declared.ty.Ty.{Ty};
    ghost use Rattle.sig_model.specs.contracts.ty.Ty as e;
    ghost use Rattle.sig_model.specs.PlainTy.{PlainTy, plain_ty};
    ghost use Rattle.rbs_types.specs.Twins.{ty_of, plain_ty_of};

    ghost Value = { PlainTy };

    ghost coded = { code_by (Ty) (Prim.hlevel (codes, e.the_row.coded)) ty_of plain_ty plain_ty_of };

    ghost use Rattle.sig_model.specs.PlainTy.{plain_ty};
    ghost use Rattle.sig_model.specs.Height.{height};
    ghost use Rattle.rbs_types.specs.Capped.{capped};

    ghost view = { λ t. plain_ty t.ty };

    ghost invariant = { λ t. t.levels ≡ capped (height (plain_ty t.ty)) };
}

/// Types with the height of the tallest, 0 where there is none. Contracts see them as the plain types.
#[derive(Drop)]
pub struct Talls {
    items: Many<Ty>,
    levels: u32,
}

impl Model for Talls {
    ghost use Rattle.std.specs.Prelude.{◌≡◌, List, Option};
    ghost use Rattle.std.specs.Coded.{codes, code_by, coded_list, coded_option};
    ghost use Rattle.sig_model.specs.declared.ty.Ty.{Ty};
    ghost use Rattle.sig_model.specs.contracts.ty.Ty as e;
    ghost use Rattle.sig_model.specs.PlainTy.{PlainTys, plain_tys};
    ghost use Rattle.rbs_types.specs.Twins.{tys_of, plain_tys_of};

    ghost Value = { PlainTys };

    ghost coded = { code_by (List Ty) (Prim.hlevel (codes, e.the_row.coded)) tys_of plain_tys plain_tys_of };

    ghost use Rattle.sig_model.specs.PlainTy.{plain_tys};
    ghost use Rattle.sig_model.specs.Height.{tallest};
    ghost use Rattle.rbs_types.specs.Capped.{capped};

    ghost view = { λ t. plain_tys t.items };

    ghost invariant = { λ t. t.levels ≡ capped (tallest (plain_tys t.items)) };
}

/// Keys of a record type or keywords of a method, with the height of the tallest type.
#[derive(Drop)]
pub struct Keys {
    items: NamedList<RecKey>,
    levels: u32,
}

impl Model for Keys {
    ghost use Rattle.std.specs.Prelude.{◌≡◌, List, Option};
    ghost use Rattle.std.specs.Coded.{codes, code_by, coded_list, coded_option};
    ghost use Rattle.sig_model.specs.declared.ty.RecKey.{RecKey};
    ghost use Rattle.sig_model.specs.contracts.ty.Ty as e;
    ghost use Rattle.sig_model.specs.PlainTy.{PlainKeys, plain_keys};
    ghost use Rattle.rbs_types.specs.Twins.{keys_of, plain_keys_of};

    ghost Value = { PlainKeys };

    ghost coded = { code_by (List RecKey) (Prim.hlevel (codes, e.the_row.coded)) keys_of plain_keys plain_keys_of };

    ghost use Rattle.sig_model.specs.PlainTy.{plain_keys};
    ghost use Rattle.sig_model.specs.Height.{tallest_key};
    ghost use Rattle.rbs_types.specs.Capped.{capped};

    ghost view = { λ t. plain_keys t.items };

    ghost invariant = { λ t. t.levels ≡ capped (tallest_key (plain_keys t.items)) };
}

/// Positional parameters, with the height of the tallest type.
#[derive(Drop)]
pub struct Args {
    items: Many<Arg>,
    levels: u32,
}

impl Model for Args {
    ghost use Rattle.std.specs.Prelude.{◌≡◌, List, Option};
    ghost use Rattle.std.specs.Coded.{codes, code_by, coded_list, coded_option};
    ghost use Rattle.sig_model.specs.declared.ty.Arg.{Arg};
    ghost use Rattle.sig_model.specs.contracts.ty.Ty as e;
    ghost use Rattle.sig_model.specs.PlainTy.{PlainArgs, plain_args};
    ghost use Rattle.rbs_types.specs.Twins.{args_of, plain_args_of};

    ghost Value = { PlainArgs };

    ghost coded = { code_by (List Arg) (Prim.hlevel (codes, e.the_row.coded)) args_of plain_args plain_args_of };

    ghost use Rattle.sig_model.specs.PlainTy.{plain_args};
    ghost use Rattle.sig_model.specs.Height.{tallest_arg};
    ghost use Rattle.rbs_types.specs.Capped.{capped};

    ghost view = { λ t. plain_args t.items };

    ghost invariant = { λ t. t.levels ≡ capped (tallest_arg (plain_args t.items)) };
}

/// The parameter of the rest, if there is one, with the height of its type.
#[derive(Drop)]
pub struct Rest {
    item: Option<Boxed<Arg>>,
    levels: u32,
}

impl Model for Rest {
    ghost use Rattle.std.specs.Prelude.{◌≡◌, List, Option};
    ghost use Rattle.std.specs.Coded.{codes, code_by, coded_list, coded_option};
    ghost use Rattle.sig_model.specs.declared.ty.Arg.{Arg};
    ghost use Rattle.sig_model.specs.contracts.ty.Ty as e;
    ghost use Rattle.sig_model.specs.PlainTy.{PlainRest, plain_rest};
    ghost use Rattle.rbs_types.specs.Twins.{rest_of, plain_rest_of};

    ghost Value = { PlainRest };

    ghost coded = { code_by (Option Arg) (Prim.hlevel (codes, e.the_row.coded)) rest_of plain_rest plain_rest_of };

    ghost use Rattle.sig_model.specs.PlainTy.{plain_rest};
    ghost use Rattle.sig_model.specs.Height.{rest_height};
    ghost use Rattle.rbs_types.specs.Capped.{capped};

    ghost view = { λ t. plain_rest t.item };

    ghost invariant = { λ t. t.levels ≡ capped (rest_height (plain_rest t.item)) };
}

/// A block, if there is one, with the height of the tallest type of its function.
#[derive(Drop)]
pub struct Block {
    item: Option<Boxed<BlockTy>>,
    levels: u32,
}

impl Model for Block {
    ghost use Rattle.std.specs.Prelude.{◌≡◌, List, Option};
    ghost use Rattle.std.specs.Coded.{codes, code_by, coded_list, coded_option};
    ghost use Rattle.sig_model.specs.declared.ty.Ty.{Ty};
    ghost use Rattle.sig_model.specs.contracts.ty.Ty as e;
    ghost use Rattle.sig_model.specs.PlainTy.{PlainBlock, plain_block};
    ghost use Rattle.rbs_types.specs.Twins.{block_code_to, block_code_from, block_code_back};

    ghost Value = { PlainBlock };

    ghost coded = { code_by Ty (Prim.hlevel (codes, e.the_row.coded)) block_code_to block_code_from block_code_back };

    ghost use Rattle.sig_model.specs.PlainTy.{plain_block};
    ghost use Rattle.sig_model.specs.Height.{block_height};
    ghost use Rattle.rbs_types.specs.Capped.{capped};

    ghost view = { λ t. plain_block t.item };

    ghost invariant = { λ t. t.levels ≡ capped (block_height (plain_block t.item)) };
}

/// The parameter, moved.
fn argument_of(item: Option<Boxed<Arg>>) -> Option<Arg>
    ensures { result ≡ item }
{
    match item {
        Some(argument) => Some(argument.into_inner()),
        None => None,
    }
}

/// The height of the tallest type of the function of these parameters, this block and this result.
pub fn levels_of(parameters: &Parameters, key_rest: &Rest, block: &Block, outcome: &Tall) -> u32
    ensures { result ≡ capped (fun_height (function_of (record { parameters = parameters.now; key_rest = key_rest.now }) block.now outcome.now)) }
{
    let listed = parameters.levels().max(key_rest.levels);
    listed.max(block.levels).max(outcome.levels)
}

/// The function of these parameters, this block and this result.
pub fn fun_of(parameters: Parameters, key_rest: Rest, block: Block, outcome: Tall) -> FunTy
    ensures { plain_fun result ≡ function_of (record { parameters = parameters; key_rest = key_rest }) block outcome }
{
    let Parameters {
        required,
        optional,
        rest,
        trailing,
        keys,
    } = parameters;
    FunTy {
        required: required.items,
        optional: optional.items,
        rest: argument_of(rest.item),
        trailing: trailing.items,
        keys: keys.items.into_items(),
        key_rest: argument_of(key_rest.item),
        block: block.item,
        result: outcome.ty,
    }
}

/// The function of all these parameters, this block and this result, with the height of its tallest type.
fn function_of(listed: Listed, block: Block, outcome: Tall) -> (FunTy, u32)
    ensures fun { plain_fun result.0 ≡ function_of listed block outcome }
    ensures levels { result.1 ≡ capped (fun_height (function_of listed block outcome)) }
{
    let Listed {
        parameters,
        key_rest,
    } = listed;
    let parameters = parameters.into_inner();
    let levels = levels_of(&parameters, &key_rest, &block, &outcome);
    (fun_of(parameters, key_rest, block, outcome), levels)
}

impl Tall {
    /// The height, as far as heights are told apart.
    pub fn levels(&self) -> u32
        ensures { result ≡ capped (height self.now) }
    {
        self.levels
    }

    /// A type without parts.
    fn leaf(ty: Ty) -> Tall
        requires { height (plain_ty ty) ≡ 1 }
        ensures { result ≡ plain_ty ty }
    {
        Tall { ty, levels: 1 }
    }

    /// A word of the language.
    pub fn base(base: BaseTy) -> Tall
        ensures { result ≡ plain.base base }
    {
        Tall::leaf(Ty::Base(base))
    }

    pub fn integer(value: i64) -> Tall
        ensures { result ≡ plain.int value }
    {
        Tall::leaf(Ty::Int(value))
    }

    pub fn text(value: Word) -> Tall
        ensures { result ≡ plain.str value }
    {
        Tall::leaf(Ty::Str(value))
    }

    pub fn symbol(name: Word) -> Tall
        ensures { result ≡ plain.sym name }
    {
        Tall::leaf(Ty::Sym(name))
    }

    pub fn single(name: TypeName) -> Tall
        ensures { result ≡ plain.single name }
    {
        Tall::leaf(Ty::Single(name))
    }

    /// A name with its arguments.
    pub fn name(name: TypeName, args: Talls) -> Tall
        ensures { result ≡ plain.name name args }
    {
        let Talls { items, levels } = args;
        Tall {
            ty: Ty::Name { name, args: items },
            levels: above(levels),
        }
    }

    pub fn opt(alloc: Global, inner: Tall) -> Result<Tall, NoMemory>
        ensures { IfOk result (λ t. t ≡ plain.opt inner) }
    {
        let Tall { ty, levels } = inner;
        Ok(Tall {
            ty: Ty::Opt(Boxed::new(alloc, ty)?),
            levels: above(levels),
        })
    }

    pub fn union(members: Talls) -> Tall
        ensures { result ≡ plain.union members }
    {
        let Talls { items, levels } = members;
        Tall {
            ty: Ty::Union(items),
            levels: above(levels),
        }
    }

    pub fn inter(members: Talls) -> Tall
        ensures { result ≡ plain.inter members }
    {
        let Talls { items, levels } = members;
        Tall {
            ty: Ty::Inter(items),
            levels: above(levels),
        }
    }

    pub fn tuple(members: Talls) -> Tall
        ensures { result ≡ plain.tuple members }
    {
        let Talls { items, levels } = members;
        Tall {
            ty: Ty::Tuple(items),
            levels: above(levels),
        }
    }

    pub fn record(keys: Keys) -> Tall
        ensures { result ≡ plain.rec keys }
    {
        let Keys { items, levels } = keys;
        Tall {
            ty: Ty::Rec(items.into_items()),
            levels: above(levels),
        }
    }

    /// A proc type of these parameters, this block and this result.
    pub fn function(
        alloc: Global,
        listed: Listed,
        block: Block,
        outcome: Tall,
    ) -> Result<Tall, NoMemory>
        ensures { IfOk result (λ t. t ≡ plain.fun (function_of listed block outcome)) }
    {
        let (fun, levels) = function_of(listed, block, outcome);
        Tall::of_fun(alloc, fun, levels)
    }

    /// A proc type of this function, whose tallest type has `levels`.
    pub fn of_fun(alloc: Global, fun: FunTy, levels: u32) -> Result<Tall, NoMemory>
        requires { levels ≡ capped (fun_height (plain_fun fun)) }
        ensures { IfOk result (λ t. t ≡ plain.fun (plain_fun fun)) }
    {
        Ok(Tall {
            ty: Ty::Fun(Boxed::new(alloc, fun)?),
            levels: above(levels),
        })
    }

    /// The type.
    pub fn into_ty(self) -> Ty
        ensures { plain_ty result ≡ self }
    {
        let Tall { ty, .. } = self;
        ty
    }

    /// The function that the type is, or `None` where it is another type.
    pub fn into_function(self) -> Option<FunTy>
        ensures { MatchOption result (function_in self ≡ None) (λ f. self ≡ plain.fun (plain_fun f)) }
    {
        match self.into_ty() {
            Ty::Fun(fun) => Some(fun.into_inner()),
            Ty::Name { .. }
            | Ty::Single(_)
            | Ty::Opt(_)
            | Ty::Union(_)
            | Ty::Inter(_)
            | Ty::Tuple(_)
            | Ty::Rec(_)
            | Ty::Int(_)
            | Ty::Str(_)
            | Ty::Sym(_)
            | Ty::Base(_) => None,
        }
    }
}

impl Talls {
    /// No type.
    pub fn new(alloc: Global) -> Talls
        ensures { result ≡ plain.no_tys }
    {
        Talls {
            items: Many::new(alloc),
            levels: 0,
        }
    }

    pub fn levels(&self) -> u32
        ensures { result ≡ capped (tallest self.now) }
    {
        self.levels
    }

    pub fn is_empty(&self) -> bool
        ensures { result ≡ no_ty self.now }
    {
        self.items.is_empty()
    }

    /// The types, moved.
    pub fn into_tys(self) -> Many<Ty>
        ensures { plain_tys result ≡ self }
    {
        let Talls { items, .. } = self;
        items
    }

    /// Adds one more at the end.
    pub fn add(&mut self, more: Tall) -> Result<(), NoMemory>
        ensures { OnOk result (self.new ≡ and_ty self.old more) }
    {
        let Tall { ty, levels } = more;
        self.items.push(ty)?;
        self.levels = self.levels.max(levels);
        Ok(())
    }

    /// The types, and one more.
    pub fn with(self, more: Tall) -> Result<Talls, NoMemory>
        ensures { IfOk result (λ ts. ts ≡ and_ty self more) }
    {
        let mut types = self;
        types.add(more)?;
        Ok(types)
    }
}

impl Keys {
    /// No key.
    pub fn new(alloc: Global) -> Keys
        ensures { result ≡ plain.no_keys }
    {
        Keys {
            items: NamedList::new(alloc),
            levels: 0,
        }
    }

    pub fn levels(&self) -> u32
        ensures { result ≡ capped (tallest_key self.now) }
    {
        self.levels
    }

    pub fn is_empty(&self) -> bool
        ensures { result ≡ no_key self.now }
    {
        self.items.is_empty()
    }

    /// No key has this name.
    #[tactic(auto, using(crate::proofs::KeyNames::new_key))]
    pub fn is_new(&self, name: &Word) -> bool
        ensures { result ≡ is_new name.now self.now }
    {
        self.items.is_new(name)
    }

    /// Adds one more at the end.
    pub fn add(&mut self, key: Word, needed: bool, ty: Tall) -> Result<(), NoMemory>
        ensures { OnOk result (self.new ≡ and_key self.old key needed ty) }
    {
        let Tall { ty, levels } = ty;
        self.items.push(RecKey { key, needed, ty })?;
        self.levels = self.levels.max(levels);
        Ok(())
    }

    /// The keys, and one more.
    pub fn with(self, key: Word, needed: bool, ty: Tall) -> Result<Keys, NoMemory>
        ensures { IfOk result (λ ks. ks ≡ and_key self key needed ty) }
    {
        let mut keys = self;
        keys.add(key, needed, ty)?;
        Ok(keys)
    }
}

impl Args {
    /// No parameter.
    pub fn new(alloc: Global) -> Args
        ensures { result ≡ plain.no_args }
    {
        Args {
            items: Many::new(alloc),
            levels: 0,
        }
    }

    pub fn levels(&self) -> u32
        ensures { result ≡ capped (tallest_arg self.now) }
    {
        self.levels
    }

    pub fn is_empty(&self) -> bool
        ensures { result ≡ no_arg self.now }
    {
        self.items.is_empty()
    }

    /// Adds one more at the end.
    pub fn add(&mut self, ty: Tall, name: Option<Word>) -> Result<(), NoMemory>
        ensures { OnOk result (self.new ≡ and_arg self.old ty name) }
    {
        let Tall { ty, levels } = ty;
        self.items.push(Arg { ty, name })?;
        self.levels = self.levels.max(levels);
        Ok(())
    }

    /// The parameters, and one more.
    pub fn with(self, ty: Tall, name: Option<Word>) -> Result<Args, NoMemory>
        ensures { IfOk result (λ ts. ts ≡ and_arg self ty name) }
    {
        let mut parameters = self;
        parameters.add(ty, name)?;
        Ok(parameters)
    }
}

impl Rest {
    /// No rest.
    pub fn none() -> Rest
        ensures { result ≡ plain.no_rest }
    {
        Rest {
            item: None,
            levels: 0,
        }
    }

    /// A parameter of this type, with its name if it has one.
    pub fn of(alloc: Global, ty: Tall, name: Option<Word>) -> Result<Rest, NoMemory>
        ensures { IfOk result (λ rest. rest ≡ plain.rest ty name) }
    {
        let Tall { ty, levels } = ty;
        Ok(Rest {
            item: Some(Boxed::new(alloc, Arg { ty, name })?),
            levels,
        })
    }

    pub fn levels(&self) -> u32
        ensures { result ≡ capped (rest_height self.now) }
    {
        self.levels
    }

    pub fn is_none(&self) -> bool
        ensures { result ≡ no_rest_yet self.now }
    {
        self.item.is_none()
    }
}

impl Block {
    /// No block.
    pub fn none() -> Block
        ensures { result ≡ plain.no_block }
    {
        Block {
            item: None,
            levels: 0,
        }
    }

    pub fn levels(&self) -> u32
        ensures { result ≡ capped (block_height self.now) }
    {
        self.levels
    }

    /// A block of these parameters and this result.
    pub fn of(alloc: Global, needed: bool, listed: Listed, outcome: Tall) -> Result<Block, NoMemory>
        ensures { IfOk result (λ b. b ≡ plain.block needed (function_of listed plain.no_block outcome)) }
    {
        let (fun, levels) = function_of(listed, Block::none(), outcome);
        Block::of_fun(alloc, needed, fun, levels)
    }

    /// A block of this function, whose tallest type has `levels`.
    pub fn of_fun(alloc: Global, needed: bool, fun: FunTy, levels: u32) -> Result<Block, NoMemory>
        requires { levels ≡ capped (fun_height (plain_fun fun)) }
        ensures { IfOk result (λ b. b ≡ plain.block needed (plain_fun fun)) }
    {
        Ok(Block {
            item: Some(Boxed::new(alloc, BlockTy { needed, fun })?),
            levels,
        })
    }
}
