//! What is whole goes to where it belongs: a declaration to the file or to the innermost open declaration, a member to that one.

ghost use Rattle.std.specs.Prelude.{◌≡◌, Some, IfOk};
ghost use Rattle.sig_model.specs.PlainMember.{plain_member};
ghost use Rattle.sig_model.specs.PlainDecl.{plain_decl, plain_body};
ghost use Rattle.rbs_declarations.specs.Machine as machine;
ghost use Rattle.rbs_declarations.specs.Does.{Does};

use crate::around::Around;
use crate::built::{class, interface, module};
use crate::plain::{Params, Parts};
use crate::refused::Stuck;
use crate::state::{Begun, Focus, Frame, Heading, Sort, State};
use plain_data::NoMemory;
use rbs_types::Talls;
use sig_model::decl::{Decl, DeclBody, Member, Notes};
use sig_model::place::Place;
use sig_model::ty::TypeName;
use std::alloc::Global;

/// The declaration with one more declaration in it.
fn with_inner(frame: Frame, inner: Decl) -> Result<Frame, NoMemory>
    ensures { IfOk result (λ f. f ≡ machine.with_inner frame (plain_decl inner)) }
{
    let Frame {
        begun,
        heading,
        parts,
    } = frame;
    Ok(Frame {
        begun,
        heading,
        parts: parts.with_inner(inner)?,
    })
}

/// The state behind a declaration, which stands in the innermost open one, or in none.
fn with_decl(around: Around, last: Decl) -> Result<State, NoMemory>
    ensures { IfOk result (λ s. s ≡ machine.with_decl around.decls around.frames (plain_decl last)) }
{
    let Around {
        decls,
        mut frames,
        ..
    } = around;
    match frames.pop() {
        Some(frame) => Ok(State {
            decls,
            frames: frames.with(with_inner(frame, last)?)?,
            focus: Focus::Parts,
        }),
        None => Ok(State {
            decls: decls.with(last)?,
            frames,
            focus: Focus::Parts,
        }),
    }
}

/// The declaration with one more member.
fn with_part(frame: Frame, place: Place, notes: Notes, member: Member) -> Result<Frame, NoMemory>
    ensures { IfOk result (λ f. f ≡ machine.with_part frame place notes (plain_member member)) }
{
    let Frame {
        begun,
        heading,
        parts,
    } = frame;
    Ok(Frame {
        begun,
        heading,
        parts: parts.with_member(place, notes, member)?,
    })
}

/// The state behind a member, which stands in the innermost open declaration.
fn with_member(
    around: Around,
    place: Place,
    notes: Notes,
    member: Member,
) -> Result<State, NoMemory>
    ensures { IfOk result (λ s. s ≡ machine.with_member around.decls around.frames place notes (plain_member member)) }
{
    let Around {
        decls,
        mut frames,
        ..
    } = around;
    match frames.pop() {
        Some(frame) => Ok(State {
            decls,
            frames: frames.with(with_part(frame, place, notes, member)?)?,
            focus: Focus::Parts,
        }),
        None => Ok(State {
            decls,
            frames,
            focus: Focus::Parts,
        }),
    }
}

/// A declaration without parts.
fn framed(alloc: Global, begun: Begun, heading: Heading) -> Frame
    ensures { result ≡ machine.framed begun heading }
{
    Frame {
        begun,
        heading,
        parts: Parts::new(alloc),
    }
}

/// The state behind a heading.
pub fn opening(
    alloc: Global,
    begun: Begun,
    heading: Heading,
    around: Around,
) -> Result<State, NoMemory>
    ensures { IfOk result (λ s. machine.opening begun heading around.decls around.frames ≡ Some s) }
{
    let Around { decls, frames, .. } = around;
    Ok(State {
        decls,
        frames: frames.with(framed(alloc, begun, heading))?,
        focus: Focus::Parts,
    })
}

/// The state where the parts of a declaration with this name and these parameters begin.
///
/// # Errors
///
/// `Syntax` for what has no parts.
pub fn opened(
    alloc: Global,
    begun: Begun,
    sort: Sort,
    name: TypeName,
    params: Params,
    around: Around,
) -> Result<State, Stuck>
    ensures { Does (machine.opened begun sort name params around.decls around.frames) result }
{
    match sort {
        Sort::Class => {
            let parent = None;
            let heading = Heading::Class {
                name,
                params,
                parent,
            };
            Ok(opening(alloc, begun, heading, around)?)
        }
        Sort::Module => {
            let selves = Talls::new(alloc);
            let heading = Heading::Module {
                name,
                params,
                selves,
            };
            Ok(opening(alloc, begun, heading, around)?)
        }
        Sort::Interface => {
            let heading = Heading::Interface { name, params };
            Ok(opening(alloc, begun, heading, around)?)
        }
        Sort::Alias | Sort::Constant => Err(Stuck::Syntax),
    }
}

/// What is declared by this heading and these parts.
fn body_of(heading: Heading, parts: Parts) -> DeclBody
    ensures { plain_body result ≡ machine.body_of heading parts }
{
    match heading {
        Heading::Class {
            name,
            params,
            parent,
        } => class(name, params, parent, parts),
        Heading::Module {
            name,
            params,
            selves,
        } => module(name, params, selves, parts),
        Heading::Interface { name, params } => interface(name, params, parts),
    }
}

/// The span from where it began to this end.
fn place_from(file: u32, begun: &Begun, end: u32) -> Place
    ensures { result ≡ machine.place_from file begun.now end }
{
    Place {
        file,
        start: begun.start,
        end,
    }
}

/// The state behind a declaration that ends at `end`.
pub fn declared(begun: Begun, end: u32, body: DeclBody, around: Around) -> Result<State, NoMemory>
    ensures { IfOk result (λ s. s ≡ machine.declared around.file begun end (plain_body body) around.decls around.frames) }
{
    let place = place_from(around.file, &begun, end);
    let Begun { notes, .. } = begun;
    let notes = notes.into_inner();
    with_decl(around, Decl { place, notes, body })
}

/// The state behind a member that ends at `end`.
pub fn membered(begun: Begun, end: u32, member: Member, around: Around) -> Result<State, NoMemory>
    ensures { IfOk result (λ s. s ≡ machine.membered around.file begun end (plain_member member) around.decls around.frames) }
{
    let place = place_from(around.file, &begun, end);
    let Begun { notes, .. } = begun;
    with_member(around, place, notes.into_inner(), member)
}

/// The state behind a declaration of this frame that ends at `end`.
pub fn ended(frame: Frame, end: u32, around: Around) -> Result<State, NoMemory>
    ensures { IfOk result (λ s. s ≡ machine.declared around.file frame.begun end (machine.body_of frame.heading frame.parts) around.decls around.frames) }
{
    let Frame {
        begun,
        heading,
        parts,
    } = frame;
    declared(begun, end, body_of(heading, parts), around)
}
