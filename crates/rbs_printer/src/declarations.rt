//! The printed form of declarations.
#![tactic(auto, using(sig_model::specs::Plain::plain_steps, crate::proofs::Parts::listing))]

ghost use Rattle.std.specs.Prelude.{◌≡◌, ◌++◌, suc, OnOk, codes};
ghost use Rattle.sig_model.specs.PlainTy.{plain_ty, plain_tys};
ghost use Rattle.sig_model.specs.PlainMember.{plain_option, plain_params, plain_member};
ghost use Rattle.sig_model.specs.PlainDecl.{plain_body, plain_decl, plain_decls, plain_parts, part_before, no_parts};
ghost use Rattle.rbs_printer.specs.Texts.{name_text, indent, line};
ghost use Rattle.rbs_printer.specs.Types.{type_text};
ghost use Rattle.rbs_printer.specs.Declarations.{parameters_text, parent_text, selves_text, member_text, notes_lines, body_lines, decl_lines, parts_lines, printed};

use crate::members::{add_bound, add_member, add_notes, add_type_parameters};
use crate::texts::{add_indent, add_name};
use crate::types::{Site, add_type, add_types};
use plain_data::{Many, NoMemory};
use sig_model::decl::{Decl, DeclBody, Member, Notes, Part, TyParam};
use sig_model::ty::{Ty, TypeName};
use std::alloc::Global;

/// Adds the self types of a module, where it has some.
fn add_selves(alloc: Global, selves: &[Ty], out: &mut Many<u8>) -> Result<(), NoMemory>
    ensures { OnOk result (out.new ≡ out.old ++ selves_text (plain_tys selves.now)) }
{
    if selves.is_empty() {
        return Ok(());
    }
    out.extend(b": ")?;
    add_types(alloc, Site::Whole, b", ", selves, out)
}

/// Adds the front of a declaration's line: its blanks, its word, its name and its type parameters.
fn add_heading(
    alloc: Global,
    depth: usize,
    word: &str,
    name: &TypeName,
    params: &[TyParam],
    out: &mut Many<u8>,
) -> Result<(), NoMemory>
    ensures { OnOk result (out.new ≡ out.old ++ indent depth ++ word.now ++ name_text name.now ++ parameters_text (plain_params params.now)) }
{
    add_indent(depth, out)?;
    out.extend(word.as_bytes())?;
    add_name(name, out)?;
    add_type_parameters(alloc, params, out)
}

/// Adds the parts of a declaration, and the line that ends it.
#[cycle(decl_text)]
fn add_inside(
    alloc: Global,
    depth: usize,
    parts: &[Part],
    out: &mut Many<u8>,
) -> Result<(), NoMemory>
    ensures { OnOk result (out.new ≡ out.old ++ parts_lines (suc depth) (plain_parts parts.now) ++ line depth (codes "end")) }
{
    // No tree so deep fits in memory.
    let Some(inner) = depth.checked_add(1) else {
        return Err(NoMemory);
    };
    for part in parts {
        add_part(alloc, inner, part, out)?;
    }
    add_indent(depth, out)?;
    out.extend(b"end\n")
}

/// Adds the first line of a class.
fn add_class_line(
    alloc: Global,
    depth: usize,
    name: &TypeName,
    params: &[TyParam],
    parent: &Option<Ty>,
    out: &mut Many<u8>,
) -> Result<(), NoMemory>
    ensures { OnOk result (out.new ≡ out.old ++ line depth (codes "class " ++ name_text name.now ++ parameters_text (plain_params params.now) ++ parent_text (plain_option parent.now))) }
{
    add_heading(alloc, depth, "class ", name, params, out)?;
    add_bound(alloc, parent, out)?;
    out.extend(b"\n")
}

/// Adds the first line of a module.
fn add_module_line(
    alloc: Global,
    depth: usize,
    name: &TypeName,
    params: &[TyParam],
    selves: &[Ty],
    out: &mut Many<u8>,
) -> Result<(), NoMemory>
    ensures { OnOk result (out.new ≡ out.old ++ line depth (codes "module " ++ name_text name.now ++ parameters_text (plain_params params.now) ++ selves_text (plain_tys selves.now))) }
{
    add_heading(alloc, depth, "module ", name, params, out)?;
    add_selves(alloc, selves, out)?;
    out.extend(b"\n")
}

/// Adds the lines of what is declared, this deep in.
#[cycle(decl_text)]
fn add_body(
    alloc: Global,
    depth: usize,
    body: &DeclBody,
    out: &mut Many<u8>,
) -> Result<(), NoMemory>
    ensures { OnOk result (out.new ≡ out.old ++ body_lines depth (plain_body body.now)) }
{
    match body {
        DeclBody::Class {
            name,
            params,
            parent,
            parts,
        } => {
            add_class_line(alloc, depth, name, params.as_slice(), parent, out)?;
            add_inside(alloc, depth, parts.as_slice(), out)
        }
        DeclBody::Module {
            name,
            params,
            selves,
            parts,
        } => {
            add_module_line(
                alloc,
                depth,
                name,
                params.as_slice(),
                selves.as_slice(),
                out,
            )?;
            add_inside(alloc, depth, parts.as_slice(), out)
        }
        DeclBody::Iface {
            name,
            params,
            parts,
        } => {
            add_heading(alloc, depth, "interface ", name, params.as_slice(), out)?;
            out.extend(b"\n")?;
            add_inside(alloc, depth, parts.as_slice(), out)
        }
        DeclBody::Alias { name, params, ty } => add_alias(
            alloc,
            depth,
            name,
            params.as_slice(),
            ty,
            out,
        ),
        DeclBody::Const { name, ty } => add_constant(alloc, depth, name, ty, out),
    }
}

/// Adds the line of an alias.
fn add_alias(
    alloc: Global,
    depth: usize,
    name: &TypeName,
    params: &[TyParam],
    ty: &Ty,
    out: &mut Many<u8>,
) -> Result<(), NoMemory>
    ensures { OnOk result (out.new ≡ out.old ++ line depth (codes "type " ++ name_text name.now ++ parameters_text (plain_params params.now) ++ codes " = " ++ type_text (plain_ty ty.now))) }
{
    add_heading(alloc, depth, "type ", name, params, out)?;
    out.extend(b" = ")?;
    add_type(alloc, ty, out)?;
    out.extend(b"\n")
}

/// Adds the line of a constant.
fn add_constant(
    alloc: Global,
    depth: usize,
    name: &TypeName,
    ty: &Ty,
    out: &mut Many<u8>,
) -> Result<(), NoMemory>
    ensures { OnOk result (out.new ≡ out.old ++ line depth (name_text name.now ++ codes ": " ++ type_text (plain_ty ty.now))) }
{
    add_indent(depth, out)?;
    add_name(name, out)?;
    out.extend(b": ")?;
    add_type(alloc, ty, out)?;
    out.extend(b"\n")
}

/// Adds the lines of a member and of the notes before it, this deep in.
fn add_member_lines(
    alloc: Global,
    depth: usize,
    notes: &Notes,
    member: &Member,
    out: &mut Many<u8>,
) -> Result<(), NoMemory>
    ensures { OnOk result (out.new ≡ out.old ++ notes_lines depth notes.now ++ line depth (member_text (plain_member member.now))) }
{
    add_notes(depth, notes, out)?;
    add_indent(depth, out)?;
    add_member(alloc, member, out)?;
    out.extend(b"\n")
}

/// Adds the lines of a part of a declaration, this deep in.
#[cycle(decl_text)]
fn add_part(alloc: Global, depth: usize, part: &Part, out: &mut Many<u8>) -> Result<(), NoMemory>
    ensures { OnOk result (out.new ≡ out.old ++ parts_lines depth (part_before part.now no_parts)) }
{
    match part {
        Part::Inner(decl) => add_decl(alloc, depth, decl, out),
        Part::Member { notes, member, .. } => add_member_lines(alloc, depth, notes, member, out),
    }
}

/// Adds the lines of a declaration and of the notes before it, this deep in.
#[cycle(decl_text)]
fn add_decl(alloc: Global, depth: usize, decl: &Decl, out: &mut Many<u8>) -> Result<(), NoMemory>
    ensures { OnOk result (out.new ≡ out.old ++ decl_lines depth (plain_decl decl.now)) }
{
    add_notes(depth, &decl.notes, out)?;
    add_body(alloc, depth, &decl.body, out)
}

/// Adds the printed form of declarations.
///
/// # Errors
///
/// `NoMemory` where there is none for it; what `out` holds then is not fixed.
pub fn print(alloc: Global, decls: &[Decl], out: &mut Many<u8>) -> Result<(), NoMemory>
    ensures { OnOk result (out.new ≡ out.old ++ printed (plain_decls decls.now)) }
{
    for decl in decls {
        add_decl(alloc, 0, decl, out)?;
    }
    Ok(())
}
