//! The printed form of type parameters, overloads, members and notes.
#![tactic(auto, using(sig_model::specs::Plain::plain_steps, crate::proofs::Parts::listing))]

ghost use Rattle.std.specs.Prelude.{◌≡◌, ◌++◌, OnOk, codes, map};
ghost use Rattle.std.specs.List.{flat_map};
ghost use Rattle.sig_model.specs.PlainTy.{plain_ty};
ghost use Rattle.sig_model.specs.PlainMember.{plain_option, plain_param, plain_params, plain_method, plain_methods, plain_member};
ghost use Rattle.rbs_printer.specs.Texts.{joined, where_set};
ghost use Rattle.rbs_printer.specs.Types.{type_text};
ghost use Rattle.rbs_printer.specs.Declarations.{bound_text, parameter_text, parameters_text, overload_parameters, overload_text, vis_before, member_text, comment_line, annotation_line, notes_lines};

use crate::texts::{add_indent, add_where, attribute_text, mixin_text, variance_text, vis_text};
use crate::types::{add_function, add_type};
use plain_data::{Many, NoMemory, Word};
use sig_model::decl::{Member, MethodTy, Notes, TyParam, Vis};
use sig_model::ty::Ty;
use std::alloc::Global;

/// Adds the bound of a type parameter or the superclass of a class, where there is one.
///
/// # Errors
///
/// `NoMemory` where there is none for it; what was added then is a front of it.
pub fn add_bound(alloc: Global, bound: &Option<Ty>, out: &mut Many<u8>) -> Result<(), NoMemory>
    ensures { OnOk result (out.new ≡ out.old ++ bound_text (plain_option bound.now)) }
{
    match bound {
        None => Ok(()),
        Some(ty) => {
            out.extend(b" < ")?;
            add_type(alloc, ty, out)
        }
    }
}

/// Adds a type parameter.
fn add_type_parameter(alloc: Global, param: &TyParam, out: &mut Many<u8>) -> Result<(), NoMemory>
    ensures { OnOk result (out.new ≡ out.old ++ parameter_text (plain_param param.now)) }
{
    add_where(param.unchecked, b"unchecked ", out)?;
    out.extend(variance_text(param.variance).as_bytes())?;
    out.extend(param.name.as_bytes())?;
    add_bound(alloc, &param.bound, out)
}

/// Adds type parameters with a comma between each two.
fn add_between(alloc: Global, params: &[TyParam], out: &mut Many<u8>) -> Result<(), NoMemory>
    ensures { OnOk result (out.new ≡ out.old ++ joined (codes ", ") (map parameter_text (plain_params params.now))) }
{
    let mut listed = false;
    for param in params {
        add_where(listed, b", ", out)?;
        add_type_parameter(alloc, param, out)?;
        listed = true;
    }
    Ok(())
}

/// Adds type parameters in brackets, where there are some.
///
/// # Errors
///
/// `NoMemory` where there is none for them; what was added then is a front of them.
pub fn add_type_parameters(
    alloc: Global,
    params: &[TyParam],
    out: &mut Many<u8>,
) -> Result<(), NoMemory>
    ensures { OnOk result (out.new ≡ out.old ++ parameters_text (plain_params params.now)) }
{
    if params.is_empty() {
        return Ok(());
    }
    out.extend(b"[")?;
    add_between(alloc, params, out)?;
    out.extend(b"]")
}

/// Adds an overload: its type parameters, with a blank behind them, and its function.
#[tactic(auto, using(sig_model::specs::Plain::plain_steps, crate::proofs::Parts::overload_parameters_are))]
fn add_overload(alloc: Global, overload: &MethodTy, out: &mut Many<u8>) -> Result<(), NoMemory>
    ensures { OnOk result (out.new ≡ out.old ++ overload_text (plain_method overload.now)) }
{
    let params = overload.params.as_slice();
    add_type_parameters(alloc, params, out)?;
    add_where(!params.is_empty(), b" ", out)?;
    add_function(alloc, &overload.fun, out)
}

/// Adds the overloads of a method with a bar between each two.
fn add_overloads(alloc: Global, overloads: &[MethodTy], out: &mut Many<u8>) -> Result<(), NoMemory>
    ensures { OnOk result (out.new ≡ out.old ++ joined (codes " | ") (map overload_text (plain_methods overloads.now))) }
{
    let mut listed = false;
    for overload in overloads {
        add_where(listed, b" | ", out)?;
        add_overload(alloc, overload, out)?;
        listed = true;
    }
    Ok(())
}

/// Adds the visibility of a member, where it has one.
fn add_vis(vis: Option<Vis>, out: &mut Many<u8>) -> Result<(), NoMemory>
    ensures { OnOk result (out.new ≡ out.old ++ vis_before vis) }
{
    match vis {
        None => Ok(()),
        Some(vis) => {
            out.extend(vis_text(vis).as_bytes())?;
            out.extend(b" ")
        }
    }
}

/// Adds a name, a colon, and a type.
fn add_typed(alloc: Global, name: &Word, ty: &Ty, out: &mut Many<u8>) -> Result<(), NoMemory>
    ensures { OnOk result (out.new ≡ out.old ++ name.now ++ codes ": " ++ type_text (plain_ty ty.now)) }
{
    out.extend(name.as_bytes())?;
    out.extend(b": ")?;
    add_type(alloc, ty, out)
}

/// Adds a method. `single` says that `self.` stands before its name.
fn add_method(
    alloc: Global,
    vis: Option<Vis>,
    single: bool,
    name: &Word,
    overloads: &[MethodTy],
    out: &mut Many<u8>,
) -> Result<(), NoMemory>
    ensures { OnOk result (out.new ≡ out.old ++ vis_before vis ++ codes "def " ++ where_set single (codes "self.") ++ name.now ++ codes ": " ++ joined (codes " | ") (map overload_text (plain_methods overloads.now))) }
{
    add_vis(vis, out)?;
    out.extend(b"def ")?;
    add_where(single, b"self.", out)?;
    out.extend(name.as_bytes())?;
    out.extend(b": ")?;
    add_overloads(alloc, overloads, out)
}

/// Adds a member, which takes one line.
///
/// # Errors
///
/// `NoMemory` where there is none for it; what was added then is a front of it.
pub fn add_member(alloc: Global, member: &Member, out: &mut Many<u8>) -> Result<(), NoMemory>
    ensures { OnOk result (out.new ≡ out.old ++ member_text (plain_member member.now)) }
{
    match member {
        Member::Method {
            vis,
            single,
            name,
            overloads,
        } => { add_method(alloc, *vis, *single, name, overloads.as_slice(), out) }
        Member::Attr {
            vis,
            kind,
            name,
            ty,
        } => {
            add_vis(*vis, out)?;
            out.extend(attribute_text(*kind).as_bytes())?;
            out.extend(b" ")?;
            add_typed(alloc, name, ty, out)
        }
        Member::Mixin { kind, ty } => {
            out.extend(mixin_text(*kind).as_bytes())?;
            out.extend(b" ")?;
            add_type(alloc, ty, out)
        }
        Member::Alias { new, old } => {
            out.extend(b"alias ")?;
            out.extend(new.as_bytes())?;
            out.extend(b" ")?;
            out.extend(old.as_bytes())
        }
        Member::Ivar { single, name, ty } => {
            add_where(*single, b"self.", out)?;
            out.extend(b"@")?;
            add_typed(alloc, name, ty, out)
        }
        Member::Section(vis) => out.extend(vis_text(*vis).as_bytes()),
    }
}

/// Adds the line of a carried comment.
fn add_comment(depth: usize, text: &Word, out: &mut Many<u8>) -> Result<(), NoMemory>
    ensures { OnOk result (out.new ≡ out.old ++ comment_line depth text.now) }
{
    add_indent(depth, out)?;
    out.extend(b"#")?;
    out.extend(text.as_bytes())?;
    out.extend(b"\n")
}

/// Adds the line of an annotation.
fn add_annotation(depth: usize, text: &Word, out: &mut Many<u8>) -> Result<(), NoMemory>
    ensures { OnOk result (out.new ≡ out.old ++ annotation_line depth text.now) }
{
    add_indent(depth, out)?;
    out.extend(b"%a{")?;
    out.extend(text.as_bytes())?;
    out.extend(b"}\n")
}

/// Adds the lines of carried comments.
fn add_comments(depth: usize, comments: &[Word], out: &mut Many<u8>) -> Result<(), NoMemory>
    ensures { OnOk result (out.new ≡ out.old ++ flat_map (comment_line depth) comments.now) }
{
    for comment in comments {
        add_comment(depth, comment, out)?;
    }
    Ok(())
}

/// Adds the lines of annotations.
fn add_annotations(depth: usize, annotations: &[Word], out: &mut Many<u8>) -> Result<(), NoMemory>
    ensures { OnOk result (out.new ≡ out.old ++ flat_map (annotation_line depth) annotations.now) }
{
    for annotation in annotations {
        add_annotation(depth, annotation, out)?;
    }
    Ok(())
}

/// Adds the lines of carried comments, and then those of annotations, this deep in.
///
/// # Errors
///
/// `NoMemory` where there is none for them; what was added then is a front of them.
pub fn add_notes(depth: usize, notes: &Notes, out: &mut Many<u8>) -> Result<(), NoMemory>
    ensures { OnOk result (out.new ≡ out.old ++ notes_lines depth notes.now) }
{
    add_comments(depth, notes.comments.as_slice(), out)?;
    add_annotations(depth, notes.annotations.as_slice(), out)
}
