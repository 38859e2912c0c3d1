//! The printed form of types and functions.
#![tactic(auto, using(sig_model::specs::Plain::plain_steps, crate::proofs::Parts::listing))]

ghost use Rattle.std.specs.Prelude.{◌≡◌, ◌++◌, IfOk, OnOk, codes, false};
ghost use Rattle.sig_model.specs.PlainTy as plain;
ghost use Rattle.sig_model.specs.PlainTy.{plain_ty, plain_tys, plain_keys, plain_args, plain_rest, plain_block, plain_fun};
ghost use Rattle.rbs_printer.specs.Texts.{joined};
ghost use Rattle.rbs_printer.specs.Types.{is_optional, needs_parentheses, question_behind, name_behind, key_text, placed, type_text, texts_at, arguments_text, record_text, key_texts, function_text, argument_texts, rest_texts, block_text};
ghost use Rattle.rbs_printer.specs.Listed.{listed, some_listed, site_of, parameter_texts};

use crate::texts::{add_integer, add_name, add_string, add_where, base_text, ends_in_word};
use plain_data::{Boxed, Many, NoMemory, Word};
use sig_model::ty::{Arg, BlockTy, FunTy, RecKey, Ty};
use std::alloc::Global;

/// Where a type stands.
#[derive(Clone, Copy, Debug)]
pub enum Site {
    /// Where any type may stand as it is.
    Whole,
    InUnion,
    InInter,
    BeforeQuestion,
    /// Behind the arrow of a function.
    Behind,
}

/// Whether a type is an optional.
fn is_optional(ty: &Ty) -> bool
    ensures { result ≡ is_optional (plain_ty ty.now) }
{
    match ty {
        Ty::Opt(_) => true,
        Ty::Name { .. } => false,
        Ty::Single(_) => false,
        Ty::Union(_) => false,
        Ty::Inter(_) => false,
        Ty::Tuple(_) => false,
        Ty::Rec(_) => false,
        Ty::Fun(_) => false,
        Ty::Int(_) => false,
        Ty::Str(_) => false,
        Ty::Sym(_) => false,
        Ty::Base(_) => false,
    }
}

/// Whether a proc type stands in parentheses there: a question mark would belong to its result.
fn proc_needs_parentheses(site: Site, fun: &FunTy) -> bool
    ensures { result ≡ needs_parentheses (site_of site) (plain.fun (plain_fun fun.now)) }
{
    match site {
        Site::BeforeQuestion => !is_optional(&fun.result),
        Site::Whole => false,
        Site::InUnion => false,
        Site::InInter => false,
        Site::Behind => false,
    }
}

/// Whether a type stands in parentheses there.
fn needs_parentheses(site: Site, ty: &Ty) -> bool
    ensures { result ≡ needs_parentheses (site_of site) (plain_ty ty.now) }
{
    match ty {
        Ty::Union(_) => !matches!(site, Site::Whole),
        Ty::Inter(_) => matches!(site, Site::InInter | Site::BeforeQuestion | Site::Behind),
        Ty::Opt(_) => matches!(site, Site::BeforeQuestion),
        Ty::Fun(fun) => proc_needs_parentheses(site, fun.get()),
        Ty::Name { .. } => false,
        Ty::Single(_) => false,
        Ty::Tuple(_) => false,
        Ty::Rec(_) => false,
        Ty::Int(_) => false,
        Ty::Str(_) => false,
        Ty::Sym(_) => false,
        Ty::Base(_) => false,
    }
}

/// Adds the question mark behind a type, with a blank where it would belong to a symbol's name.
fn add_question(ty: &Ty, out: &mut Many<u8>) -> Result<(), NoMemory>
    ensures { OnOk result (out.new ≡ out.old ++ question_behind (plain_ty ty.now)) }
{
    match ty {
        Ty::Sym(word) => {
            if ends_in_word(word.as_bytes()) {
                out.extend(b" ?")
            } else {
                out.extend(b"?")
            }
        }
        Ty::Name { .. } => out.extend(b"?"),
        Ty::Single(_) => out.extend(b"?"),
        Ty::Opt(_) => out.extend(b"?"),
        Ty::Union(_) => out.extend(b"?"),
        Ty::Inter(_) => out.extend(b"?"),
        Ty::Tuple(_) => out.extend(b"?"),
        Ty::Rec(_) => out.extend(b"?"),
        Ty::Fun(_) => out.extend(b"?"),
        Ty::Int(_) => out.extend(b"?"),
        Ty::Str(_) => out.extend(b"?"),
        Ty::Base(_) => out.extend(b"?"),
    }
}

/// Adds the name of a positional parameter, where it has one.
fn add_label(label: &Option<Word>, out: &mut Many<u8>) -> Result<(), NoMemory>
    ensures { OnOk result (out.new ≡ out.old ++ name_behind label.now) }
{
    match label {
        None => Ok(()),
        Some(word) => {
            out.extend(b" ")?;
            out.extend(word.as_bytes())
        }
    }
}

/// Adds a key, up to its type.
fn add_key(word: &Word, needed: bool, out: &mut Many<u8>) -> Result<(), NoMemory>
    ensures { OnOk result (out.new ≡ out.old ++ key_text word.now needed) }
{
    if !needed {
        out.extend(b"?")?;
    }
    out.extend(word.as_bytes())?;
    out.extend(b": ")
}

/// Adds a type.
///
/// # Errors
///
/// `NoMemory` where there is none for it; what was added then is a front of it.
#[cycle(type_text)]
pub fn add_type(alloc: Global, ty: &Ty, out: &mut Many<u8>) -> Result<(), NoMemory>
    ensures { OnOk result (out.new ≡ out.old ++ type_text (plain_ty ty.now)) }
{
    match ty {
        Ty::Name { name, args } => {
            add_name(name, out)?;
            add_type_arguments(alloc, args.as_slice(), out)
        }
        Ty::Single(name) => {
            out.extend(b"singleton(")?;
            add_name(name, out)?;
            out.extend(b")")
        }
        Ty::Opt(inner) => {
            add_placed(alloc, Site::BeforeQuestion, inner.get(), out)?;
            add_question(inner.get(), out)
        }
        Ty::Union(parts) => add_types(alloc, Site::InUnion, b" | ", parts.as_slice(), out),
        Ty::Inter(parts) => add_types(alloc, Site::InInter, b" & ", parts.as_slice(), out),
        Ty::Tuple(parts) => {
            out.extend(b"[")?;
            add_types(alloc, Site::Whole, b", ", parts.as_slice(), out)?;
            out.extend(b"]")
        }
        Ty::Rec(keys) => add_record(alloc, keys.as_slice(), out),
        Ty::Fun(fun) => {
            out.extend(b"^")?;
            add_function(alloc, fun.get(), out)
        }
        Ty::Int(value) => add_integer(alloc, *value, out),
        Ty::Str(word) => add_string(word, out),
        Ty::Sym(word) => {
            out.extend(b":")?;
            out.extend(word.as_bytes())
        }
        Ty::Base(base) => out.extend(base_text(*base).as_bytes()),
    }
}

/// Adds a type as it stands there.
#[cycle(type_text)]
fn add_placed(alloc: Global, site: Site, ty: &Ty, out: &mut Many<u8>) -> Result<(), NoMemory>
    ensures { OnOk result (out.new ≡ out.old ++ placed (site_of site) (plain_ty ty.now) (type_text (plain_ty ty.now))) }
{
    if needs_parentheses(site, ty) {
        out.extend(b"(")?;
        add_type(alloc, ty, out)?;
        out.extend(b")")
    } else {
        add_type(alloc, ty, out)
    }
}

/// Adds types as they stand there, with a text between each two.
///
/// # Errors
///
/// `NoMemory` where there is none for it; what was added then is a front of it.
#[cycle(type_text)]
pub fn add_types(
    alloc: Global,
    site: Site,
    between: &[u8],
    types: &[Ty],
    out: &mut Many<u8>,
) -> Result<(), NoMemory>
    ensures { OnOk result (out.new ≡ out.old ++ joined between.now (texts_at (site_of site) (plain_tys types.now))) }
{
    let mut listed = false;
    for ty in types {
        add_where(listed, between, out)?;
        add_placed(alloc, site, ty, out)?;
        listed = true;
    }
    Ok(())
}

/// Adds the arguments of a name in brackets, where it has some.
#[cycle(type_text)]
fn add_type_arguments(alloc: Global, types: &[Ty], out: &mut Many<u8>) -> Result<(), NoMemory>
    ensures { OnOk result (out.new ≡ out.old ++ arguments_text (plain_tys types.now)) }
{
    if types.is_empty() {
        return Ok(());
    }
    out.extend(b"[")?;
    add_types(alloc, Site::Whole, b", ", types, out)?;
    out.extend(b"]")
}

/// Adds a record type.
#[cycle(type_text)]
fn add_record(alloc: Global, keys: &[RecKey], out: &mut Many<u8>) -> Result<(), NoMemory>
    ensures { OnOk result (out.new ≡ out.old ++ record_text (plain_keys keys.now)) }
{
    if keys.is_empty() {
        return out.extend(b"{}");
    }
    out.extend(b"{ ")?;
    add_keys(alloc, false, keys, out)?;
    out.extend(b" }")
}

/// Adds keys with their types, and says whether something is listed then. `before` says that something was listed before.
#[cycle(type_text)]
fn add_keys(
    alloc: Global,
    before: bool,
    keys: &[RecKey],
    out: &mut Many<u8>,
) -> Result<bool, NoMemory>
    ensures text { OnOk result (out.new ≡ out.old ++ listed before (codes ", ") (key_texts (plain_keys keys.now))) }
    ensures some { IfOk result (λ more. more ≡ some_listed before (key_texts (plain_keys keys.now))) }
{
    let mut listed = before;
    for key in keys {
        add_where(listed, b", ", out)?;
        add_key(&key.key, key.needed, out)?;
        add_type(alloc, &key.ty, out)?;
        listed = true;
    }
    Ok(listed)
}

/// Adds positional parameters, each with a mark before it, and says whether something is listed then.
#[cycle(type_text)]
fn add_arguments(
    alloc: Global,
    before: bool,
    mark: &[u8],
    args: &[Arg],
    out: &mut Many<u8>,
) -> Result<bool, NoMemory>
    ensures text { OnOk result (out.new ≡ out.old ++ listed before (codes ", ") (argument_texts mark.now (plain_args args.now))) }
    ensures some { IfOk result (λ more. more ≡ some_listed before (argument_texts mark.now (plain_args args.now))) }
{
    let mut listed = before;
    for arg in args {
        add_where(listed, b", ", out)?;
        out.extend(mark)?;
        add_type(alloc, &arg.ty, out)?;
        add_label(&arg.name, out)?;
        listed = true;
    }
    Ok(listed)
}

/// Adds the parameter of a rest with a mark before it, where there is one, and says whether something is listed then.
#[cycle(type_text)]
fn add_rest(
    alloc: Global,
    before: bool,
    mark: &[u8],
    rest: &Option<Arg>,
    out: &mut Many<u8>,
) -> Result<bool, NoMemory>
    ensures text { OnOk result (out.new ≡ out.old ++ listed before (codes ", ") (rest_texts mark.now (plain_rest rest.now))) }
    ensures some { IfOk result (λ more. more ≡ some_listed before (rest_texts mark.now (plain_rest rest.now))) }
{
    match rest {
        None => Ok(before),
        Some(arg) => {
            add_where(before, b", ", out)?;
            out.extend(mark)?;
            add_type(alloc, &arg.ty, out)?;
            add_label(&arg.name, out)?;
            Ok(true)
        }
    }
}

/// Adds all parameters of a function.
#[cycle(type_text)]
fn add_parameters(alloc: Global, fun: &FunTy, out: &mut Many<u8>) -> Result<(), NoMemory>
    ensures { OnOk result (out.new ≡ out.old ++ listed false (codes ", ") (parameter_texts (plain_fun fun.now))) }
{
    let listed = add_arguments(alloc, false, b"", fun.required.as_slice(), out)?;
    let listed = add_arguments(alloc, listed, b"?", fun.optional.as_slice(), out)?;
    let listed = add_rest(alloc, listed, b"*", &fun.rest, out)?;
    let listed = add_arguments(alloc, listed, b"", fun.trailing.as_slice(), out)?;
    let listed = add_keys(alloc, listed, fun.keys.as_slice(), out)?;
    add_rest(alloc, listed, b"**", &fun.key_rest, out)?;
    Ok(())
}

/// Adds a block in braces, where there is one.
#[cycle(type_text)]
fn add_block(
    alloc: Global,
    block: &Option<Boxed<BlockTy>>,
    out: &mut Many<u8>,
) -> Result<(), NoMemory>
    ensures { OnOk result (out.new ≡ out.old ++ block_text (plain_block block.now)) }
{
    match block {
        None => Ok(()),
        Some(block) => {
            let block = block.get();
            if block.needed {
                out.extend(b" { ")?;
            } else {
                out.extend(b" ?{ ")?;
            }
            add_function(alloc, &block.fun, out)?;
            out.extend(b" }")
        }
    }
}

/// Adds the parameters, the block and the result of a method, a block or a proc.
///
/// # Errors
///
/// `NoMemory` where there is none for it; what was added then is a front of it.
#[cycle(type_text)]
pub fn add_function(alloc: Global, fun: &FunTy, out: &mut Many<u8>) -> Result<(), NoMemory>
    ensures { OnOk result (out.new ≡ out.old ++ function_text (plain_fun fun.now)) }
{
    out.extend(b"(")?;
    add_parameters(alloc, fun, out)?;
    out.extend(b")")?;
    add_block(alloc, &fun.block, out)?;
    out.extend(b" -> ")?;
    add_placed(alloc, Site::Behind, &fun.result, out)
}
