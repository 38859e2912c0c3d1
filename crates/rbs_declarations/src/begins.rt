//! Where a declaration or a part of one begins.

ghost use Rattle.std.specs.Prelude.{◌≡◌, ℕ, List, [], ◌∷◌, ◌++◌, Some, IfOk};
ghost use Rattle.rbs_terminals.specs.declared.token.Gap.{Gap};
ghost use Rattle.rbs_types.specs.Parts.{grown, no_name};
ghost use Rattle.rbs_declarations.specs.declared.state.Focus.TheVariants as focus;
ghost use Rattle.rbs_declarations.specs.declared.state.Step.TheVariants as step_at;
ghost use Rattle.rbs_declarations.specs.Machine as machine;
ghost use Rattle.rbs_declarations.specs.Words as words;
ghost use Rattle.rbs_declarations.specs.Does.{Does};
ghost use Rattle.rbs_declarations.specs.Sites.{site_for, spot_at};

use crate::around::{Around, at};
use crate::refused::Stuck;
use crate::sites::{Site, site_of};
use crate::state::{Begun, Focus, Naming, Sort, State};
use crate::type_names::{no_naming, rooted_naming, upper_naming};
use crate::wholes::ended;
use crate::words::{attribute_of, is_keyword, mixin_of, vis_of};
use plain_data::{Boxed, Many, NoMemory, Word};
use rbs_terminals::{Keyword, Kind, Mark, Spot, Token};
use sig_model::decl::{MixKind, Notes};
use std::alloc::Global;

/// Behind the keyword of a declaration of this sort.
fn declaring(alloc: Global, begun: Begun, sort: Sort, around: Around) -> State
    ensures { machine.declaring around.file begun sort around.decls around.frames ≡ Some result }
{
    let naming = no_naming(alloc);
    at(
        Focus::Name {
            begun,
            sort,
            naming,
        },
        around,
    )
}

/// What a keyword does where a declaration may begin.
fn declaration_keyword(
    alloc: Global,
    begun: Begun,
    around: Around,
    keyword: Keyword,
) -> Result<State, Stuck>
    ensures { Does (machine.declaration_keyword around.file begun around.decls around.frames keyword) result }
{
    match keyword {
        Keyword::Class => Ok(declaring(alloc, begun, Sort::Class, around)),
        Keyword::Module => Ok(declaring(alloc, begun, Sort::Module, around)),
        Keyword::Interface => Ok(declaring(alloc, begun, Sort::Interface, around)),
        Keyword::Type => Ok(declaring(alloc, begun, Sort::Alias, around)),
        _ => Err(Stuck::Syntax),
    }
}

/// What a keyword does where a declaration or a mixin may begin.
fn mixin_begins(
    alloc: Global,
    begun: Begun,
    around: Around,
    keyword: Keyword,
) -> Result<State, Stuck>
    ensures { Does (machine.mixin_begins around.file begun around.decls around.frames keyword (words.mixin_of keyword)) result }
{
    match mixin_of(keyword) {
        Some(kind) => {
            let naming = no_naming(alloc);
            Ok(at(
                Focus::Mixin {
                    begun,
                    kind,
                    naming,
                },
                around,
            ))
        }
        None => declaration_keyword(alloc, begun, around, keyword),
    }
}

/// What a keyword does where a declaration, a mixin or an attribute may begin.
fn attribute_begins(
    alloc: Global,
    begun: Begun,
    around: Around,
    keyword: Keyword,
) -> Result<State, Stuck>
    ensures { Does (machine.attribute_begins around.file begun around.decls around.frames keyword (words.attribute_of keyword)) result }
{
    match attribute_of(keyword) {
        Some(kind) => {
            let vis = None;
            Ok(at(Focus::Attribute { begun, vis, kind }, around))
        }
        None => mixin_begins(alloc, begun, around, keyword),
    }
}

/// What a keyword that ends at `end` does where these or a visibility may begin.
fn vis_begins(
    alloc: Global,
    begun: Begun,
    around: Around,
    keyword: Keyword,
    end: u32,
) -> Result<State, Stuck>
    ensures { (before : ℕ) → (gap : Gap) → (comments : List (List ℕ))
        → Does (machine.vis_begins around.file begun around.decls around.frames keyword (spot_at before gap begun.start end comments) (words.vis_of keyword)) result }
{
    match vis_of(keyword) {
        Some(vis) => Ok(at(Focus::Visible { begun, vis, end }, around)),
        None => attribute_begins(alloc, begun, around, keyword),
    }
}

/// What a keyword that ends at `end` does in a class or a module.
fn member_keyword(
    alloc: Global,
    begun: Begun,
    around: Around,
    keyword: Keyword,
    end: u32,
) -> Result<State, Stuck>
    ensures { (before : ℕ) → (gap : Gap) → (comments : List (List ℕ))
        → Does (machine.member_keyword around.file begun around.decls around.frames keyword (spot_at before gap begun.start end comments)) result }
{
    match keyword {
        Keyword::Def => {
            let vis = None;
            Ok(at(Focus::Def { begun, vis }, around))
        }
        Keyword::Alias => Ok(at(Focus::Alias { begun }, around)),
        Keyword::SelfWord => Ok(at(Focus::SelfWord { begun }, around)),
        keyword => vis_begins(alloc, begun, around, keyword, end),
    }
}

/// What a keyword does in an interface.
fn interface_keyword(
    alloc: Global,
    begun: Begun,
    around: Around,
    keyword: Keyword,
) -> Result<State, Stuck>
    ensures { Does (machine.interface_keyword around.file begun around.decls around.frames keyword) result }
{
    match keyword {
        Keyword::Def => {
            let (vis, single) = (None, false);
            Ok(at(Focus::MethodStart { begun, vis, single }, around))
        }
        Keyword::Include => {
            let (kind, naming) = (MixKind::Include, no_naming(alloc));
            Ok(at(
                Focus::Mixin {
                    begun,
                    kind,
                    naming,
                },
                around,
            ))
        }
        _ => Err(Stuck::Syntax),
    }
}

/// What a keyword that ends at `end` does where a part may begin.
fn keyword_begins(
    alloc: Global,
    site: Site,
    begun: Begun,
    around: Around,
    keyword: Keyword,
    end: u32,
) -> Result<State, Stuck>
    ensures { (before : ℕ) → (gap : Gap) → (comments : List (List ℕ))
        → Does (machine.keyword_begins around.file (site_for site) begun around.decls around.frames keyword (spot_at before gap begun.start end comments)) result }
{
    match site {
        Site::File => declaration_keyword(alloc, begun, around, keyword),
        Site::Class => member_keyword(alloc, begun, around, keyword, end),
        Site::Interface => interface_keyword(alloc, begun, around, keyword),
    }
}

/// What the first token of a constant's name does.
fn constant_begins(site: Site, begun: Begun, naming: Naming, around: Around) -> Result<State, Stuck>
    ensures { Does (machine.constant_begins around.file (site_for site) begun naming.name naming.step around.decls around.frames) result }
{
    match site {
        Site::File | Site::Class => {
            let sort = Sort::Constant;
            Ok(at(
                Focus::Name {
                    begun,
                    sort,
                    naming,
                },
                around,
            ))
        }
        Site::Interface => Err(Stuck::Syntax),
    }
}

/// What the name of an instance variable does.
fn variable_begins(site: Site, begun: Begun, name: Word, around: Around) -> Result<State, Stuck>
    ensures { Does (machine.variable_begins around.file (site_for site) begun name around.decls around.frames) result }
{
    match site {
        Site::Class => {
            let single = false;
            Ok(at(
                Focus::Variable {
                    begun,
                    single,
                    name,
                },
                around,
            ))
        }
        Site::File | Site::Interface => Err(Stuck::Syntax),
    }
}

/// The notes with one more annotation.
fn annotated(notes: Notes, annotation: Word) -> Result<Notes, NoMemory>
    ensures { IfOk result (λ n. n ≡ record { comments = notes.comments; annotations = notes.annotations ++ annotation ∷ [] }) }
{
    let Notes {
        comments,
        mut annotations,
    } = notes;
    annotations.push(annotation)?;
    Ok(Notes {
        comments,
        annotations,
    })
}

/// An annotation, which the notes get.
fn noted(
    alloc: Global,
    start: u32,
    notes: Boxed<Notes>,
    around: Around,
    annotation: Word,
) -> Result<State, Stuck>
    ensures { Does (machine.at (focus.Noted (record { start = start; notes = machine.annotated around.file notes annotation })) around.decls around.frames) result }
{
    let notes = Boxed::new(alloc, annotated(notes.into_inner(), annotation)?)?;
    let begun = Begun { start, notes };
    Ok(at(Focus::Noted { begun }, around))
}

/// A constant whose name begins with this word.
fn upper_begins(
    alloc: Global,
    site: Site,
    begun: Begun,
    word: Word,
    around: Around,
) -> Result<State, Stuck>
    ensures { Does (machine.constant_begins around.file (site_for site) begun (grown no_name word) step_at.Upper around.decls around.frames) result }
{
    let naming = upper_naming(no_naming(alloc).name, word)?;
    constant_begins(site, begun, naming, around)
}

/// What a token from `start` to `end` does behind these notes, where a part may begin.
pub fn begins(
    alloc: Global,
    notes: Boxed<Notes>,
    around: Around,
    kind: Kind,
    start: u32,
    end: u32,
) -> Result<State, Stuck>
    ensures { (before : ℕ) → (gap : Gap) → (comments : List (List ℕ))
        → Does (machine.begins around.file notes around.decls around.frames kind (spot_at before gap start end comments)) result }
{
    let site = site_of(&around.frames);
    match kind {
        Kind::Annotation(annotation) => noted(alloc, start, notes, around, annotation),
        Kind::Keyword(keyword) => {
            keyword_begins(alloc, site, Begun { start, notes }, around, keyword, end)
        }
        Kind::Upper(word) => upper_begins(alloc, site, Begun { start, notes }, word, around),
        Kind::Mark(Mark::Scope) => {
            constant_begins(site, Begun { start, notes }, rooted_naming(alloc), around)
        }
        Kind::Variable(name) => variable_begins(site, Begun { start, notes }, name, around),
        _ => Err(Stuck::Syntax),
    }
}

/// What a token from `start` to `end` does behind these notes, which it carries alone.
fn carrying_begins(
    alloc: Global,
    notes: Notes,
    around: Around,
    kind: Kind,
    start: u32,
    end: u32,
) -> Result<State, Stuck>
    ensures { (before : ℕ) → (gap : Gap) → (comments : List (List ℕ))
        → Does (machine.begins around.file notes around.decls around.frames kind (spot_at before gap start end comments)) result }
{
    let notes = Boxed::new(alloc, notes)?;
    begins(alloc, notes, around, kind, start, end)
}

/// What an `end` does, which ends the innermost open declaration.
fn ended_frame(around: Around, spot: &Spot) -> Result<State, Stuck>
    ensures { Does (machine.ended_frame around.file around.decls around.frames spot.now) result }
{
    let Around {
        file,
        decls,
        mut frames,
    } = around;
    match frames.pop() {
        Some(frame) => {
            let around = Around {
                file,
                decls,
                frames,
            };
            Ok(ended(frame, spot.end, around)?)
        }
        None => Err(Stuck::Syntax),
    }
}

/// What a token does where a part may begin and nothing is noted yet but the comments that it carries.
fn unnoted_begins(alloc: Global, around: Around, token: Token) -> Result<State, Stuck>
    ensures { Does (machine.begins around.file (machine.no_notes_at around.file token.spot) around.decls around.frames token.kind token.spot) result }
{
    let Token { kind, spot } = token;
    let Spot {
        start,
        end,
        comments,
        ..
    } = spot;
    let annotations = Many::new(alloc);
    let notes = Notes {
        comments,
        annotations,
    };
    carrying_begins(alloc, notes, around, kind, start, end)
}

/// What a token does where a part may begin and the innermost open declaration may end.
pub fn part_begins(alloc: Global, around: Around, token: Token) -> Result<State, Stuck>
    ensures { Does (machine.part_begins around.file around.decls around.frames token.kind token.spot) result }
{
    if is_keyword(&token.kind, Keyword::End) {
        ended_frame(around, &token.spot)
    } else {
        unnoted_begins(alloc, around, token)
    }
}

/// What a token does behind what is whole.
pub fn then_part(alloc: Global, file: u32, whole: State, token: Token) -> Result<State, Stuck>
    ensures { Does (machine.then_part file (Some whole) token.kind token.spot) result }
{
    let State {
        decls,
        frames,
        focus,
    } = whole;
    // Named, and not left out by `..`: so the check of this function stays small.
    drop(focus);
    part_begins(
        alloc,
        Around {
            file,
            decls,
            frames,
        },
        token,
    )
}
