//! The classes of a signature, with what their methods take and give.

ghost use Rattle.std.specs.Option.{option_to_list};
ghost use Rattle.std.specs.Prelude.{List, ◌≡◌, IfOk, ◌++◌, [], ◌∷◌};
ghost use Rattle.sig_model.specs.PlainTy.{plain_ty, plain_args, plain_fun};
ghost use Rattle.sig_model.specs.PlainMember.{plain_methods, plain_member};
ghost use Rattle.sig_model.specs.PlainDecl.{PlainParts, part_before, plain_parts, plain_decls, plain_body};
ghost use Rattle.body_check.specs.declared.table.MethodEntry.{MethodEntry};
ghost use Rattle.body_check.specs.declared.table.ClassMethods.{ClassMethods};
ghost use Rattle.body_check.specs.Table.{base_type, type_of, types_of, fun_parameters, parameters_of, fun_result, result_of, first_word, method_before, methods_of, class_before, classes_of};

use crate::ty::ValueType;
use plain_data::{Many, NoMemory, Word};
use sig_model::decl::{Decl, DeclBody, Member, MethodTy, Part};
use sig_model::ty::{Arg, BaseTy, Ty, TypeName};
use std::alloc::Global;

/// A method of a class, with the parameters that its first overload requires, and what that gives.
#[derive(Debug, Drop)]
pub struct MethodEntry {
    pub name: Word,
    pub parameters: Many<ValueType>,
    pub gives: ValueType,
}

/// A class, with its methods in order.
#[derive(Debug, Drop)]
pub struct ClassMethods {
    pub name: Word,
    pub methods: Many<MethodEntry>,
}

/// The first word of a name's path.
fn first_word(alloc: Global, name: &TypeName) -> Result<Word, NoMemory>
    ensures { IfOk result (λ word. word ≡ first_word name.now.path) }
{
    match name.path.as_slice() {
        [] => Ok(Word::new(alloc)),
        [word, ..] => Ok(word.clone()?),
    }
}

/// What a word of the language is as a type of the profile.
fn base_type(base: BaseTy) -> ValueType
    ensures { result ≡ base_type base }
{
    match base {
        BaseTy::Nil => ValueType::Nil,
        BaseTy::True
        | BaseTy::False
        | BaseTy::Bool
        | BaseTy::Void
        | BaseTy::Top
        | BaseTy::Bot
        | BaseTy::SelfTy
        | BaseTy::Instance
        | BaseTy::ClassTy
        | BaseTy::Untyped => ValueType::Void,
    }
}

/// A written type, as far as the profile has it.
#[tactic(auto, using(sig_model::specs::Plain::plain_types))]
fn type_of(alloc: Global, ty: &Ty) -> Result<ValueType, NoMemory>
    ensures { IfOk result (λ found. found ≡ type_of (plain_ty ty.now)) }
{
    match ty {
        Ty::Name { name, args: _ } => Ok(ValueType::Class(first_word(alloc, name)?)),
        Ty::Base(base) => Ok(base_type(*base)),
        Ty::Single(_) => Ok(ValueType::Void),
        Ty::Opt(_) => Ok(ValueType::Void),
        Ty::Union(_) => Ok(ValueType::Void),
        Ty::Inter(_) => Ok(ValueType::Void),
        Ty::Tuple(_) => Ok(ValueType::Void),
        Ty::Rec(_) => Ok(ValueType::Void),
        Ty::Fun(_) => Ok(ValueType::Void),
        Ty::Int(_) => Ok(ValueType::Void),
        Ty::Str(_) => Ok(ValueType::Void),
        Ty::Sym(_) => Ok(ValueType::Void),
    }
}

/// The types of positional parameters.
fn types_of(alloc: Global, args: &[Arg]) -> Result<Many<ValueType>, NoMemory>
    ensures { IfOk result (λ types. types ≡ types_of (plain_args args.now)) }
{
    let mut types = Many::new(alloc);
    for arg in args {
        types.push(type_of(alloc, &arg.ty)?)?;
    }
    Ok(types)
}

/// What an overload requires.
#[tactic(auto, using(sig_model::specs::Plain::plain_types))]
fn overload_parameters(alloc: Global, overload: &MethodTy) -> Result<Many<ValueType>, NoMemory>
    ensures { IfOk result (λ found. found ≡ fun_parameters (plain_fun overload.now.fun)) }
{
    types_of(alloc, overload.fun.required.as_slice())
}

/// What the first overload requires.
fn parameters_of(alloc: Global, overloads: &[MethodTy]) -> Result<Many<ValueType>, NoMemory>
    ensures { IfOk result (λ found. found ≡ parameters_of (plain_methods overloads.now)) }
{
    match overloads {
        [] => Ok(Many::new(alloc)),
        [first, ..] => overload_parameters(alloc, first),
    }
}

/// What an overload gives.
#[tactic(auto, using(sig_model::specs::Plain::plain_types))]
fn overload_result(alloc: Global, overload: &MethodTy) -> Result<ValueType, NoMemory>
    ensures { IfOk result (λ found. found ≡ fun_result (plain_fun overload.now.fun)) }
{
    type_of(alloc, &overload.fun.result)
}

/// What the first overload gives.
fn result_of(alloc: Global, overloads: &[MethodTy]) -> Result<ValueType, NoMemory>
    ensures { IfOk result (λ found. found ≡ result_of (plain_methods overloads.now)) }
{
    match overloads {
        [] => Ok(ValueType::Void),
        [first, ..] => overload_result(alloc, first),
    }
}

/// What a member declares of a method.
fn entry_of(alloc: Global, member: &Member) -> Result<Option<MethodEntry>, NoMemory>
    ensures { IfOk result (λ found. (behind : List MethodEntry) → method_before (plain_member member.now) behind ≡ option_to_list found ++ behind) }
{
    match member {
        Member::Method {
            vis: _,
            single: _,
            name,
            overloads,
        } => Ok(Some(MethodEntry {
            name: name.clone()?,
            parameters: parameters_of(alloc, overloads.as_slice())?,
            gives: result_of(alloc, overloads.as_slice())?,
        })),
        Member::Attr { .. } => Ok(None),
        Member::Mixin { .. } => Ok(None),
        Member::Alias { .. } => Ok(None),
        Member::Ivar { .. } => Ok(None),
        Member::Section(_) => Ok(None),
    }
}

/// What a part declares of a method of its own class.
#[tactic(auto, using(sig_model::specs::Plain::plain_decls_of))]
fn method_in(alloc: Global, part: &Part) -> Result<Option<MethodEntry>, NoMemory>
    ensures { IfOk result (λ found. (behind : PlainParts) → methods_of (part_before part.now behind) ≡ option_to_list found ++ methods_of behind) }
{
    match part {
        Part::Inner(_) => Ok(None),
        Part::Member {
            place: _,
            notes: _,
            member,
        } => entry_of(alloc, member),
    }
}

/// The methods that a class declares, in order.
fn methods_of(alloc: Global, parts: &[Part]) -> Result<Many<MethodEntry>, NoMemory>
    ensures { IfOk result (λ methods. methods ≡ methods_of (plain_parts parts.now)) }
{
    let mut methods = Many::new(alloc);
    for part in parts {
        if let Some(entry) = method_in(alloc, part)? {
            methods.push(entry)?;
        }
    }
    Ok(methods)
}

/// The class that a declaration declares.
#[tactic(auto, using(sig_model::specs::Plain::plain_decls_of))]
fn class_in(alloc: Global, body: &DeclBody) -> Result<Option<ClassMethods>, NoMemory>
    ensures { IfOk result (λ found. (behind : List ClassMethods) → class_before (plain_body body.now) behind ≡ option_to_list found ++ behind) }
{
    match body {
        DeclBody::Class {
            name,
            params: _,
            parent: _,
            parts,
        } => Ok(Some(ClassMethods {
            name: first_word(alloc, name)?,
            methods: methods_of(alloc, parts.as_slice())?,
        })),
        DeclBody::Module { .. } => Ok(None),
        DeclBody::Iface { .. } => Ok(None),
        DeclBody::Alias { .. } => Ok(None),
        DeclBody::Const { .. } => Ok(None),
    }
}

/// The classes that a signature declares, in order, with what their methods take and give.
pub fn classes_of(alloc: Global, decls: &[Decl]) -> Result<Many<ClassMethods>, NoMemory>
    ensures { IfOk result (λ classes. classes ≡ classes_of (plain_decls decls.now)) }
{
    let mut classes = Many::new(alloc);
    for decl in decls {
        if let Some(class) = class_in(alloc, &decl.body)? {
            classes.push(class)?;
        }
    }
    Ok(classes)
}
