//! Whether the names of declarations are declared, and none twice.

ghost use Rattle.std.specs.Prelude.{◌≡◌, ◌↔◌, ℕ, List, [], ◌∷◌, IfOk, IsTrue, MatchOption};
ghost use Rattle.sig_model.specs.declared.ty.BaseTy.TheVariants as base_ty;
ghost use Rattle.sig_model.specs.PlainTy as plain;
ghost use Rattle.sig_model.specs.PlainTy.{PlainFun, plain_ty, plain_fun, plain_args};
ghost use Rattle.sig_model.specs.PlainMember.{plain_member};
ghost use Rattle.sig_model.specs.PlainDecl.{PlainDecls, PlainParts, plain_decl, plain_decls, plain_parts, part_before, more_decls};
ghost use Rattle.signature_profile.specs.Profile.{AreParameters, HasDeclared, IsDeclared, IsKnown, IsMethodName, IsParameter, IsResultWord, IsWellNamed, HasWellNamed, class_before, classes_of, method_before, methods_of, class_names, result_of};
ghost use Rattle.signature_profile.specs.WellNamed.{AdmitsPart, AdmitsDecl, AdmitsMethods, ClassesLeft, MethodsOfClasses};

use names::Names;
use plain_data::{NoMemory, Word};
use profile_words::{is_core_class, is_core_name, is_reserved, is_value_class};
use sig_model::decl::{Decl, DeclBody, Member, Part};
use sig_model::ty::{Arg, BaseTy, FunTy, Ty, TypeName};
use std::alloc::Global;

/// A method's name and its type.
#[derive(Drop)]
struct Method<'a> {
    name: &'a Word,
    fun: &'a FunTy,
}

/// A class's name and its parts.
#[derive(Drop)]
struct Class<'a> {
    name: &'a Word,
    parts: &'a [Part],
}

/// The method that a member declares.
fn member_method(member: &Member) -> Option<Method<'_>>
    ensures { MatchOption result ((behind : List (List ℕ × PlainFun)) → method_before (plain_member member.now) behind ≡ behind) (λ m. (behind : List (List ℕ × PlainFun)) → method_before (plain_member member.now) behind ≡ (m.name.now, plain_fun m.fun.now) ∷ behind) }
{
    match member {
        Member::Method {
            name,
            overloads,
            ..
        } => match overloads.get(0) {
            Some(overload) => Some(Method {
                name,
                fun: &overload.fun,
            }),
            None => None,
        },
        _ => None,
    }
}

/// The method that a part declares.
fn method_of(part: &Part) -> Option<Method<'_>>
    ensures { MatchOption result ((behind : PlainParts) → methods_of (part_before part.now behind) ≡ methods_of behind) (λ m. (behind : PlainParts) → methods_of (part_before part.now behind) ≡ (m.name.now, plain_fun m.fun.now) ∷ methods_of behind) }
{
    match part {
        Part::Inner(_) => None,
        Part::Member { member, .. } => member_method(member),
    }
}

/// The class of this name with these parts, where the name is one word.
fn named_class<'a>(name: &'a TypeName, parts: &'a [Part]) -> Option<Class<'a>>
    ensures { MatchOption result ((ps : PlainParts) (behind : List (List ℕ × PlainParts)) → class_before name.now.path ps behind ≡ behind) (λ c. (c.parts.now ≡ parts.now) × ((ps : PlainParts) (behind : List (List ℕ × PlainParts)) → class_before name.now.path ps behind ≡ (c.name.now, ps) ∷ behind)) }
{
    match name.path.as_slice() {
        [word] => Some(Class { name: word, parts }),
        _ => None,
    }
}

/// The class that a declaration declares.
#[tactic(auto, using(sig_model::specs::Plain::plain_decls_of))]
fn class_of(decl: &Decl) -> Option<Class<'_>>
    ensures { MatchOption result ((behind : PlainDecls) → classes_of (more_decls (plain_decl decl.now) behind) ≡ classes_of behind) (λ c. (behind : PlainDecls) → classes_of (more_decls (plain_decl decl.now) behind) ≡ (c.name.now, plain_parts c.parts.now) ∷ classes_of behind) }
{
    match &decl.body {
        DeclBody::Class { name, parts, .. } => named_class(name, parts.as_slice()),
        DeclBody::Module { .. } => None,
        DeclBody::Iface { .. } => None,
        DeclBody::Alias { .. } => None,
        DeclBody::Const { .. } => None,
    }
}

/// Whether a name is that of a class of the core signature whose values a parameter or a result may be, or of the file.
fn is_known(classes: &Names, name: &TypeName) -> bool
    ensures { IsTrue result ↔ IsKnown classes.now name.now.rooted name.now.path }
{
    match name.path.as_slice() {
        [word] if !name.rooted => {
            is_value_class(word.as_str()) || classes.place_of(word).is_some()
        }
        _ => false,
    }
}

/// Whether a result may be this word of the language.
fn is_result_word(base: BaseTy) -> bool
    ensures { IsTrue result ↔ IsResultWord base }
{
    match base {
        BaseTy::Nil | BaseTy::Void => true,
        _ => false,
    }
}

/// Whether a result is `nil`, `void` or a known class.
#[tactic(auto, using(sig_model::specs::Plain::plain_types))]
fn is_declared(classes: &Names, ty: &Ty) -> bool
    ensures { IsTrue result ↔ IsDeclared classes.now (plain_ty ty.now) }
{
    match ty {
        Ty::Base(base) => is_result_word(*base),
        Ty::Name { name, args } => args.is_empty() && is_known(classes, name),
        Ty::Single(_) => false,
        Ty::Opt(_) => false,
        Ty::Union(_) => false,
        Ty::Inter(_) => false,
        Ty::Tuple(_) => false,
        Ty::Rec(_) => false,
        Ty::Fun(_) => false,
        Ty::Int(_) => false,
        Ty::Str(_) => false,
        Ty::Sym(_) => false,
    }
}

/// Whether a result is `void`.
#[tactic(auto, using(sig_model::specs::Plain::plain_types))]
fn is_void(ty: &Ty) -> bool
    ensures { IsTrue result ↔ (plain_ty ty.now ≡ plain.base base_ty.Void) }
{
    match ty {
        Ty::Base(base) => matches!(base, BaseTy::Void),
        Ty::Name { .. } => false,
        Ty::Single(_) => false,
        Ty::Opt(_) => false,
        Ty::Union(_) => false,
        Ty::Inter(_) => false,
        Ty::Tuple(_) => false,
        Ty::Rec(_) => false,
        Ty::Fun(_) => false,
        Ty::Int(_) => false,
        Ty::Str(_) => false,
        Ty::Sym(_) => false,
    }
}

/// Whether a parameter is `nil` or a known class.
fn is_parameter(classes: &Names, ty: &Ty) -> bool
    ensures { IsTrue result ↔ IsParameter classes.now (plain_ty ty.now) }
{
    is_declared(classes, ty) && !is_void(ty)
}

/// Whether each parameter is `nil` or a known class.
fn are_parameters(classes: &Names, args: &[Arg]) -> bool
    ensures { IsTrue result ↔ AreParameters classes.now (plain_args args.now) }
{
    for arg in args {
        if !is_parameter(classes, &arg.ty) {
            return false;
        }
    }
    true
}

/// Whether the parameters and the result of a method have declared types.
#[tactic(auto, using(sig_model::specs::Plain::plain_types))]
fn has_declared(classes: &Names, fun: &FunTy) -> bool
    ensures { IsTrue result ↔ HasDeclared classes.now (plain_fun fun.now) }
{
    are_parameters(classes, fun.required.as_slice()) && is_declared(classes, &fun.result)
}

/// Whether a method may have this name with the result of this type.
#[tactic(auto, using(sig_model::specs::Plain::plain_types))]
fn is_method_name(name: &Word, fun: &FunTy) -> bool
    ensures { IsTrue result ↔ IsMethodName name.now (result_of (plain_fun fun.now)) }
{
    let text = name.as_str();
    if text == "initialize" {
        is_void(&fun.result)
    } else {
        !is_core_name(text) && !is_reserved(text)
    }
}

/// Whether a part may stand in a class, behind the methods with the names that were seen.
fn admits_part(classes: &Names, seen: &mut Names, part: &Part) -> Result<bool, NoMemory>
    ensures { IfOk result (AdmitsPart classes.now seen.old seen.new (part_before part.now)) }
{
    let Some(method) = method_of(part) else {
        return Ok(true);
    };
    if is_method_name(method.name, method.fun) && has_declared(classes, method.fun) {
        seen.add(method.name.clone()?)
    } else {
        Ok(false)
    }
}

/// Whether the methods of a class are well named.
fn has_well_named(alloc: Global, classes: &Names, parts: &[Part]) -> Result<bool, NoMemory>
    ensures { IfOk result (λ good. IsTrue good ↔ HasWellNamed classes.now (methods_of (plain_parts parts.now))) }
{
    let mut seen = Names::new(alloc);
    for part in parts {
        if !admits_part(classes, &mut seen, part)? {
            return Ok(false);
        }
    }
    Ok(true)
}

/// Whether a declaration may stand in a file, behind the classes with the names that were seen.
fn admits_decl(seen: &mut Names, decl: &Decl) -> Result<bool, NoMemory>
    ensures { IfOk result (AdmitsDecl seen.old seen.new (plain_decl decl.now)) }
{
    let Some(class) = class_of(decl) else {
        return Ok(true);
    };
    if is_core_class(class.name.as_str()) {
        Ok(false)
    } else {
        seen.add(class.name.clone()?)
    }
}

/// The names of the classes, or `None` where one stands twice or in the core signature.
fn class_names(alloc: Global, decls: &[Decl]) -> Result<Option<Names>, NoMemory>
    ensures { IfOk result (λ found. MatchOption found (ClassesLeft [] (classes_of (plain_decls decls.now)) → ⊥) (λ names. ClassesLeft [] (classes_of (plain_decls decls.now)) × (names ≡ class_names (plain_decls decls.now)))) }
{
    let mut names = Names::new(alloc);
    for decl in decls {
        if !admits_decl(&mut names, decl)? {
            return Ok(None);
        }
    }
    Ok(Some(names))
}

/// Whether the methods of a declaration are well named.
fn admits_methods(alloc: Global, classes: &Names, decl: &Decl) -> Result<bool, NoMemory>
    ensures { IfOk result (AdmitsMethods classes.now (plain_decl decl.now)) }
{
    match class_of(decl) {
        Some(class) => has_well_named(alloc, classes, class.parts),
        None => Ok(true),
    }
}

/// Whether the methods of all classes are well named.
fn all_well_named(alloc: Global, classes: &Names, decls: &[Decl]) -> Result<bool, NoMemory>
    ensures { IfOk result (λ good. IsTrue good ↔ MethodsOfClasses classes.now (classes_of (plain_decls decls.now))) }
{
    for decl in decls {
        if !admits_methods(alloc, classes, decl)? {
            return Ok(false);
        }
    }
    Ok(true)
}

/// Whether each name is declared, and none twice.
pub fn is_well_named(alloc: Global, decls: &[Decl]) -> Result<bool, NoMemory>
    ensures { IfOk result (λ good. IsTrue good ↔ IsWellNamed (plain_decls decls.now)) }
{
    match class_names(alloc, decls)? {
        Some(classes) => all_well_named(alloc, &classes, decls),
        None => Ok(false),
    }
}
