//! Whether declarations have the form of the profile: classes of plain methods.

ghost use Rattle.std.specs.Prelude.{◌≡◌, ◌&&◌, is_none};
ghost use Rattle.std.specs.List.{list_any};
ghost use Rattle.rbs_lexer.specs.Names.{is_ending};
ghost use Rattle.sig_model.specs.PlainTy.{plain_args, plain_keys, plain_rest, plain_block, plain_fun};
ghost use Rattle.sig_model.specs.PlainMember.{plain_params, plain_option, plain_method, plain_methods, plain_member};
ghost use Rattle.sig_model.specs.PlainDecl.{PlainParts, plain_body, plain_decl, plain_decls, plain_parts, part_before};
ghost use Rattle.signature_profile.specs.Shape as shape;

use plain_data::{Boxed, Word};
use profile_words::{is_interface_name, is_keyword};
use sig_model::decl::{Decl, DeclBody, Member, MethodTy, Part, TyParam, Vis};
use sig_model::ty::{Arg, BlockTy, FunTy, RecKey, Ty, TypeName};

/// Whether a text begins with an ASCII lower-case letter or an underscore.
fn begins_lower(text: &[u8]) -> bool
    ensures { result ≡ shape.begins_lower text.now }
{
    match text {
        [] => false,
        [first, ..] => first.is_ascii_lowercase() || *first == b'_',
    }
}

/// Whether a byte is a mark with which the name of a method may end.
fn is_ending(byte: u8) -> bool
    ensures { result ≡ is_ending byte }
{
    byte == b'?' || byte == b'!' || byte == b'='
}

/// Whether a mark stands in a text with which the name of a method may end.
fn is_ended(text: &[u8]) -> bool
    ensures { result ≡ list_any is_ending text.now }
{
    text.iter().any(|byte| is_ending(*byte))
}

/// Whether a method's name is a plain word that nothing keeps.
fn is_plain_word(name: &Word) -> bool
    ensures { result ≡ shape.is_plain_word name.now }
{
    let text = name.as_str();
    let bytes = text.as_bytes();
    let plain = begins_lower(bytes) && !is_ended(bytes);
    plain && (!is_keyword(text) && !is_interface_name(bytes))
}

/// Whether a name is one word, and not rooted.
fn is_bare(name: &TypeName) -> bool
    ensures { result ≡ shape.is_bare name.now.rooted name.now.path }
{
    match name.path.as_slice() {
        [_] => !name.rooted,
        _ => false,
    }
}

fn no_param(params: &[TyParam]) -> bool
    ensures { result ≡ shape.no_item (plain_params params.now) }
{
    match params {
        [] => true,
        [_, ..] => false,
    }
}

fn no_arg(args: &[Arg]) -> bool
    ensures { result ≡ shape.no_arg (plain_args args.now) }
{
    match args {
        [] => true,
        [_, ..] => false,
    }
}

fn no_key(keys: &[RecKey]) -> bool
    ensures { result ≡ shape.no_key (plain_keys keys.now) }
{
    match keys {
        [] => true,
        [_, ..] => false,
    }
}

fn no_rest(rest: &Option<Arg>) -> bool
    ensures { result ≡ shape.no_rest_at (plain_rest rest.now) }
{
    rest.is_none()
}

fn no_block(block: &Option<Boxed<BlockTy>>) -> bool
    ensures { result ≡ shape.no_block_at (plain_block block.now) }
{
    block.is_none()
}

fn no_note(words: &[Word]) -> bool
    ensures { result ≡ shape.no_item words.now }
{
    match words {
        [] => true,
        [_, ..] => false,
    }
}

fn no_type(ty: &Option<Ty>) -> bool
    ensures { result ≡ is_none (plain_option ty.now) }
{
    ty.is_none()
}

/// Whether no parameter has a name.
fn are_unnamed(args: &[Arg]) -> bool
    ensures { result ≡ shape.are_unnamed (plain_args args.now) }
{
    args.iter().all(|arg| arg.name.is_none())
}

/// Whether a function has required parameters without names, and nothing else before its result.
#[tactic(auto, using(sig_model::specs::Plain::plain_types))]
fn is_plain_function(fun: &FunTy) -> bool
    ensures { result ≡ shape.is_plain_function (plain_fun fun.now) }
{
    let positional = no_arg(fun.optional.as_slice())
        && (no_rest(&fun.rest) && no_arg(fun.trailing.as_slice()));
    let others = no_key(fun.keys.as_slice()) && (no_rest(&fun.key_rest) && no_block(&fun.block));
    are_unnamed(fun.required.as_slice()) && (positional && others)
}

fn is_plain_overload(overload: &MethodTy) -> bool
    ensures { result ≡ shape.is_plain_overload (plain_method overload.now) }
{
    no_param(overload.params.as_slice()) && is_plain_function(&overload.fun)
}

fn is_one_overload(overloads: &[MethodTy]) -> bool
    ensures { result ≡ shape.is_one_overload (plain_methods overloads.now) }
{
    match overloads {
        [overload] => is_plain_overload(overload),
        _ => false,
    }
}

/// Whether a member is a method of a class's objects with a plain name, one overload, and no visibility of its own.
fn is_method(member: &Member) -> bool
    ensures { result ≡ shape.is_method (plain_member member.now) }
{
    match member {
        Member::Method {
            vis,
            single,
            name,
            overloads,
        } => {
            vis.is_none()
                && (!*single && (is_plain_word(name) && is_one_overload(overloads.as_slice())))
        }
        _ => false,
    }
}

/// Whether a part is such a method, without annotations.
fn is_plain_part(part: &Part) -> bool
    ensures { (behind : PlainParts) → shape.are_methods (part_before part.now behind) ≡ (result && shape.are_methods behind) }
{
    match part {
        Part::Inner(_) => false,
        Part::Member { notes, member, .. } => {
            no_note(notes.annotations.as_slice()) && is_method(member)
        }
    }
}

/// Whether the parts of a class are such methods.
fn are_methods(parts: &[Part]) -> bool
    ensures { result ≡ shape.are_methods (plain_parts parts.now) }
{
    for part in parts {
        if !is_plain_part(part) {
            return false;
        }
    }
    true
}

/// Whether what is declared is a class of such methods, with a plain name, and without type parameters and superclass.
#[tactic(auto, using(sig_model::specs::Plain::plain_decls_of))]
fn is_class_body(body: &DeclBody) -> bool
    ensures { result ≡ shape.is_class_body (plain_body body.now) }
{
    match body {
        DeclBody::Class {
            name,
            params,
            parent,
            parts,
        } => {
            let plain = is_bare(name) && (no_param(params.as_slice()) && no_type(parent));
            plain && are_methods(parts.as_slice())
        }
        DeclBody::Module { .. } => false,
        DeclBody::Iface { .. } => false,
        DeclBody::Alias { .. } => false,
        DeclBody::Const { .. } => false,
    }
}

/// Whether a declaration is such a class, without annotations.
fn is_class(decl: &Decl) -> bool
    ensures { result ≡ shape.is_class (plain_decl decl.now) }
{
    no_note(decl.notes.annotations.as_slice()) && is_class_body(&decl.body)
}

/// Whether declarations are classes of plain methods.
pub fn are_classes(decls: &[Decl]) -> bool
    ensures { result ≡ shape.are_classes (plain_decls decls.now) }
{
    decls.iter().all(|decl| is_class(decl))
}
