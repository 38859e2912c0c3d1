//! Declarations, shown as the tables write them.

use crate::shown_types::{add_name, add_quoted, add_shape, add_type, add_types, add_word};
use sig_model::Word;
use sig_model::decl::{
    AttrKind, Decl, DeclBody, Member, MethodTy, MixKind, Notes, Part, TyParam, Variance, Vis,
};
use sig_model::place::Place;
use sig_model::ty::{Ty, TypeName};
use std::alloc::AllocError;
use std::fmt::Write;

fn vis_text(vis: Vis) -> &'static str {
    match vis {
        Vis::Public => " public",
        Vis::Private => " private",
    }
}

fn section_text(vis: Vis) -> &'static str {
    match vis {
        Vis::Public => "(section public",
        Vis::Private => "(section private",
    }
}

fn attr_text(kind: AttrKind) -> &'static str {
    match kind {
        AttrKind::Reader => "(attr_reader",
        AttrKind::Writer => "(attr_writer",
        AttrKind::Accessor => "(attr_accessor",
    }
}

fn mixin_text(kind: MixKind) -> &'static str {
    match kind {
        MixKind::Include => "(include ",
        MixKind::Extend => "(extend ",
        MixKind::Prepend => "(prepend ",
    }
}

fn variance_text(variance: Variance) -> &'static str {
    match variance {
        Variance::Fixed => "",
        Variance::Out => " out",
        Variance::In => " in",
    }
}

/// Adds a bound or a superclass, where there is one.
fn add_bound(text: &mut String, bound: &Option<Ty>) -> Result<(), AllocError> {
    match bound {
        None => Ok(()),
        Some(ty) => {
            text.push_str(" (< ")?;
            add_type(text, ty)?;
            text.push(')')
        }
    }
}

/// Adds type parameters, where there are any.
fn add_params(text: &mut String, params: &[TyParam]) -> Result<(), AllocError> {
    if params.is_empty() {
        return Ok(());
    }
    text.push_str(" (params")?;
    for param in params {
        text.push_str(" (p ")?;
        add_word(text, &param.name)?;
        if param.unchecked {
            text.push_str(" unchecked")?;
        }
        text.push_str(variance_text(param.variance))?;
        add_bound(text, &param.bound)?;
        text.push(')')?;
    }
    text.push(')')
}

/// Adds each word in quotes, as a list with this letter in front.
fn add_lines(text: &mut String, letter: char, words: &[Word]) -> Result<(), AllocError> {
    for word in words {
        text.push_str(" (")?;
        text.push(letter)?;
        text.push(' ')?;
        add_quoted(text, word)?;
        text.push(')')?;
    }
    Ok(())
}

/// Adds the notes, where there are any, and the place, and closes what they belong to.
fn add_end(text: &mut String, notes: &Notes, place: Place) -> Result<(), AllocError> {
    if !notes.comments.is_empty() || !notes.annotations.is_empty() {
        text.push_str(" (notes")?;
        add_lines(text, 'c', notes.comments.as_slice())?;
        add_lines(text, 'a', notes.annotations.as_slice())?;
        text.push(')')?;
    }
    let start = place.start;
    let end = place.end;
    write!(text, " @{start}-{end})")
}

fn add_vis(text: &mut String, vis: Option<Vis>) -> Result<(), AllocError> {
    match vis {
        None => Ok(()),
        Some(vis) => text.push_str(vis_text(vis)),
    }
}

/// Adds a member's visibility, where one is written, `self.`, where it belongs to the class itself, and its name.
fn add_named(
    text: &mut String,
    vis: Option<Vis>,
    single: bool,
    name: &Word,
) -> Result<(), AllocError> {
    add_vis(text, vis)?;
    if single {
        text.push_str(" self.")?;
    }
    text.push(' ')?;
    add_quoted(text, name)
}

/// Adds the same of a member that has a type, and that type.
fn add_typed(
    text: &mut String,
    vis: Option<Vis>,
    single: bool,
    name: &Word,
    ty: &Ty,
) -> Result<(), AllocError> {
    add_named(text, vis, single, name)?;
    text.push(' ')?;
    add_type(text, ty)
}

/// Adds overloads, each behind a blank.
fn add_overloads(text: &mut String, overloads: &[MethodTy]) -> Result<(), AllocError> {
    for overload in overloads {
        text.push_str(" (m")?;
        add_params(text, overload.params.as_slice())?;
        add_shape(text, &overload.fun)?;
        text.push(')')?;
    }
    Ok(())
}

/// Adds what stands in a member before its notes.
fn add_member(text: &mut String, member: &Member) -> Result<(), AllocError> {
    match member {
        Member::Method {
            vis,
            single,
            name,
            overloads,
        } => {
            text.push_str("(def")?;
            add_named(text, *vis, *single, name)?;
            add_overloads(text, overloads.as_slice())
        }
        Member::Attr {
            vis,
            kind,
            name,
            ty,
        } => {
            text.push_str(attr_text(*kind))?;
            add_typed(text, *vis, false, name, ty)
        }
        Member::Mixin { kind, ty } => {
            text.push_str(mixin_text(*kind))?;
            add_type(text, ty)
        }
        Member::Alias { new, old } => {
            text.push_str("(alias")?;
            add_named(text, None, false, new)?;
            add_named(text, None, false, old)
        }
        Member::Ivar { single, name, ty } => {
            text.push_str("(ivar")?;
            add_typed(text, None, *single, name, ty)
        }
        Member::Section(vis) => text.push_str(section_text(*vis)),
    }
}

/// Adds a word, a name and type parameters, with which a declaration begins.
fn add_heading(
    text: &mut String,
    word: &str,
    name: &TypeName,
    params: &[TyParam],
) -> Result<(), AllocError> {
    text.push('(')?;
    text.push_str(word)?;
    text.push(' ')?;
    add_name(text, name)?;
    add_params(text, params)
}

/// Adds the same of a declaration of one type, and that type.
fn add_typed_heading(
    text: &mut String,
    word: &str,
    name: &TypeName,
    params: &[TyParam],
    ty: &Ty,
) -> Result<(), AllocError> {
    add_heading(text, word, name, params)?;
    text.push(' ')?;
    add_type(text, ty)
}

/// Adds the types that an instance of a module has to be of, where there are any.
fn add_selves(text: &mut String, selves: &[Ty]) -> Result<(), AllocError> {
    if selves.is_empty() {
        return Ok(());
    }
    text.push_str(" (selves")?;
    add_types(text, selves)?;
    text.push(')')
}

/// Adds what stands in a declaration before its notes.
#[cycle(shown_declaration)]
fn add_body(text: &mut String, body: &DeclBody) -> Result<(), AllocError> {
    match body {
        DeclBody::Class {
            name,
            params,
            parent,
            parts,
        } => {
            add_heading(text, "class", name, params.as_slice())?;
            add_bound(text, parent)?;
            add_parts(text, parts.as_slice())
        }
        DeclBody::Module {
            name,
            params,
            selves,
            parts,
        } => {
            add_heading(text, "module", name, params.as_slice())?;
            add_selves(text, selves.as_slice())?;
            add_parts(text, parts.as_slice())
        }
        DeclBody::Iface {
            name,
            params,
            parts,
        } => {
            add_heading(text, "interface", name, params.as_slice())?;
            add_parts(text, parts.as_slice())
        }
        DeclBody::Alias { name, params, ty } => {
            add_typed_heading(text, "type", name, params.as_slice(), ty)
        }
        DeclBody::Const { name, ty } => add_typed_heading(text, "const", name, &[], ty),
    }
}

/// Adds parts, each behind a blank.
#[cycle(shown_declaration)]
fn add_parts(text: &mut String, parts: &[Part]) -> Result<(), AllocError> {
    for part in parts {
        text.push(' ')?;
        match part {
            Part::Inner(decl) => add_declaration(text, decl)?,
            Part::Member {
                place,
                notes,
                member,
            } => {
                add_member(text, member)?;
                add_end(text, notes, *place)?;
            }
        }
    }
    Ok(())
}

#[cycle(shown_declaration)]
fn add_declaration(text: &mut String, decl: &Decl) -> Result<(), AllocError> {
    add_body(text, &decl.body)?;
    add_end(text, &decl.notes, decl.place)
}

/// Adds a file of these declarations.
pub fn add_file(text: &mut String, declarations: &[Decl]) -> Result<(), AllocError> {
    text.push_str("(file")?;
    for decl in declarations {
        text.push(' ')?;
        add_declaration(text, decl)?;
    }
    text.push(')')
}
