//! Attributes, mixins, instance variables and visibilities.

ghost use Rattle.std.specs.Prelude.{◌≡◌, ◌&&◌, Some, IfOk};
ghost use Rattle.rbs_terminals.specs.declared.token.Kind.{Kind};
ghost use Rattle.rbs_terminals.specs.declared.token.Kind.TheVariants as kind;
ghost use Rattle.rbs_terminals.specs.Kinds as kinds;
ghost use Rattle.rbs_types.specs.Machine as types;
ghost use Rattle.rbs_types.specs.Symbols as symbols;
ghost use Rattle.rbs_declarations.specs.declared.state.Focus.TheVariants as focus;
ghost use Rattle.rbs_declarations.specs.declared.state.Purpose.TheVariants as purpose;
ghost use Rattle.rbs_declarations.specs.Machine as machine;
ghost use Rattle.rbs_declarations.specs.Words as words;
ghost use Rattle.rbs_declarations.specs.Does.{Does, Goes};

use crate::around::{Around, at, typed_at};
use crate::begins::then_part;
use crate::built::{mixin, section};
use crate::refused::Stuck;
use crate::sites::site_of;
use crate::state::{Begun, Focus, Frame, Naming, Purpose, State};
use crate::type_names::{Progress, naming_on};
use crate::wholes::membered;
use crate::words::{attribute_of, takes_vis};
use plain_data::{NoMemory, Word};
use rbs_terminals::{Gap, Keyword, Kind, Mark, Spot, Token, is_mark, lower_of};
use rbs_types::{Stack, Tall, Talls, start, start_arguments};
use sig_model::decl::{AttrKind, MixKind, Vis};
use sig_model::ty::TypeName;
use std::alloc::Global;

/// Where the name of an attribute must come.
pub fn after_attribute(
    alloc: Global,
    begun: Begun,
    vis: Option<Vis>,
    kind: AttrKind,
    around: Around,
    word: Kind,
) -> Result<State, Stuck>
    ensures { Does (machine.attribute_named around.file begun vis kind around.decls around.frames (kinds.lower_of word)) result }
{
    match lower_of(alloc, word)? {
        Some(name) => Ok(at(
            Focus::AttributeName {
                begun,
                vis,
                kind,
                name,
            },
            around,
        )),
        None => Err(Stuck::Syntax),
    }
}

/// Behind the name of an attribute.
pub fn after_attribute_name(
    alloc: Global,
    begun: Begun,
    vis: Option<Vis>,
    kind: AttrKind,
    name: Word,
    around: Around,
    colon: Kind,
) -> Result<State, Stuck>
    ensures { Does (machine.after_attribute_name around.file begun vis kind name around.decls around.frames colon) result }
{
    match colon {
        Kind::Mark(Mark::Colon) => {
            let purpose = Purpose::Attribute {
                begun,
                vis,
                kind,
                name,
            };
            let inner = start(alloc);
            typed_at(alloc, purpose, inner, around)
        }
        _ => Err(Stuck::Syntax),
    }
}

/// The state behind a mixin without arguments, which ends at `end`.
fn with_mixin(
    alloc: Global,
    begun: Begun,
    kind: MixKind,
    name: TypeName,
    end: u32,
    around: Around,
) -> Result<State, NoMemory>
    ensures { IfOk result (λ s. s ≡ machine.with_mixin around.file begun kind name end around.decls around.frames) }
{
    let ty = Tall::name(name, Talls::new(alloc));
    membered(begun, end, mixin(kind, ty), around)
}

/// Behind the bracket of the arguments of a mixin.
fn mixin_arguments(
    alloc: Global,
    begun: Begun,
    kind: MixKind,
    name: TypeName,
    around: Around,
) -> Result<State, Stuck>
    ensures { Does (machine.at (focus.Typed (purpose.Mixin begun kind) (types.start_arguments name)) around.decls around.frames) result }
{
    let inner = start_arguments(alloc, name)?;
    let purpose = Purpose::Mixin { begun, kind };
    typed_at(alloc, purpose, inner, around)
}

/// What a token does behind a mixin without arguments.
fn then_mixin(
    alloc: Global,
    begun: Begun,
    kind: MixKind,
    name: TypeName,
    around: Around,
    token: Token,
) -> Result<State, Stuck>
    ensures { Does (machine.then_part around.file (Some (machine.with_mixin around.file begun kind name token.spot.before around.decls around.frames)) token.kind token.spot) result }
{
    let file = around.file;
    let whole = with_mixin(alloc, begun, kind, name, token.spot.before, around)?;
    then_part(alloc, file, whole, token)
}

/// Behind the name of a mixin.
pub fn after_mixin_name(
    alloc: Global,
    begun: Begun,
    kind: MixKind,
    name: TypeName,
    around: Around,
    token: Token,
) -> Result<State, Stuck>
    ensures { Does (machine.after_mixin_name around.file begun kind name around.decls around.frames token.kind token.spot) result }
{
    if is_mark(&token.kind, Mark::OpenSquare) {
        mixin_arguments(alloc, begun, kind, name, around)
    } else {
        then_mixin(alloc, begun, kind, name, around, token)
    }
}

/// What a token that makes this progress in the name of a mixin does.
fn mixin_goes(
    alloc: Global,
    begun: Begun,
    kind: MixKind,
    progress: Progress,
    around: Around,
    spot: Spot,
) -> Result<State, Stuck>
    ensures { (p : machine.Progress) → (taken : Kind) → Goes p taken progress
        → Does (machine.mixin_goes around.file begun kind p around.decls around.frames taken spot) result }
{
    match progress {
        Progress::Further(naming) => Ok(at(
            Focus::Mixin {
                begun,
                kind,
                naming,
            },
            around,
        )),
        Progress::Whole(name) => Ok(at(Focus::MixinNamed { begun, kind, name }, around)),
        Progress::Before { name, kind: taken } => {
            let token = Token { kind: taken, spot };
            after_mixin_name(alloc, begun, kind, name, around, token)
        }
        Progress::Stuck => Err(Stuck::Syntax),
    }
}

/// What a token does in the name of a mixin with these declarations open.
fn mixin_progress(
    alloc: Global,
    frames: &Stack<Frame>,
    naming: Naming,
    kind: Kind,
    spot: &Spot,
) -> Result<Progress, NoMemory>
    ensures { IfOk result (Goes (machine.naming_on (machine.mixin_use (machine.site_of frames.now)) naming kind spot.now) kind) }
{
    naming_on(alloc, site_of(frames).mixin_use(), naming, kind, spot)
}

/// In the name of a mixin.
pub fn in_mixin(
    alloc: Global,
    begun: Begun,
    mixing: MixKind,
    naming: Naming,
    around: Around,
    token: Token,
) -> Result<State, Stuck>
    ensures { Does (machine.mixin_goes around.file begun mixing (machine.naming_on (machine.mixin_use (machine.site_of around.frames)) naming token.kind token.spot) around.decls around.frames token.kind token.spot) result }
{
    let Token { kind, spot } = token;
    let progress = mixin_progress(alloc, &around.frames, naming, kind, &spot)?;
    mixin_goes(alloc, begun, mixing, progress, around, spot)
}

/// The token stands on the line of the one before it.
fn is_on_line(spot: &Spot) -> bool
    ensures { result ≡ symbols.on_line spot.now }
{
    match spot.gap {
        Gap::Line => false,
        Gap::Joined | Gap::Blank => true,
    }
}

/// The state behind a visibility that stands alone and ends at `end`.
fn with_section(begun: Begun, vis: Vis, end: u32, around: Around) -> Result<State, NoMemory>
    ensures { IfOk result (λ s. s ≡ machine.with_section around.file begun vis end around.decls around.frames) }
{
    membered(begun, end, section(vis), around)
}

/// The attribute that a visibility belongs to begins.
fn visible_attribute(
    begun: Begun,
    vis: Vis,
    around: Around,
    kind: Option<AttrKind>,
) -> Result<State, Stuck>
    ensures { Does (machine.visible_attribute around.file begun vis around.decls around.frames kind) result }
{
    match kind {
        Some(kind) => {
            let vis = Some(vis);
            Ok(at(Focus::Attribute { begun, vis, kind }, around))
        }
        None => Err(Stuck::Syntax),
    }
}

/// The member that a visibility belongs to begins with this keyword.
fn visible_keyword(begun: Begun, vis: Vis, around: Around, keyword: Keyword) -> Result<State, Stuck>
    ensures { Does (machine.visible_member around.file begun vis around.decls around.frames (kind.Keyword keyword)) result }
{
    match keyword {
        Keyword::Def => {
            let vis = Some(vis);
            Ok(at(Focus::Def { begun, vis }, around))
        }
        keyword => visible_attribute(begun, vis, around, attribute_of(keyword)),
    }
}

/// The member that a visibility belongs to begins.
fn visible_member(begun: Begun, vis: Vis, around: Around, kind: Kind) -> Result<State, Stuck>
    ensures { Does (machine.visible_member around.file begun vis around.decls around.frames kind) result }
{
    match kind {
        Kind::Keyword(keyword) => visible_keyword(begun, vis, around, keyword),
        _ => Err(Stuck::Syntax),
    }
}

/// A visibility directly before the token belongs to the member that begins with it.
fn belongs(token: &Token) -> bool
    ensures { result ≡ (symbols.on_line token.now.spot && words.takes_vis token.now.kind) }
{
    is_on_line(&token.spot) && takes_vis(&token.kind)
}

/// What a token does behind a visibility that stands alone and ends at `end`.
fn then_section(
    alloc: Global,
    begun: Begun,
    vis: Vis,
    end: u32,
    around: Around,
    token: Token,
) -> Result<State, Stuck>
    ensures { Does (machine.then_part around.file (Some (machine.with_section around.file begun vis end around.decls around.frames)) token.kind token.spot) result }
{
    let file = around.file;
    let whole = with_section(begun, vis, end, around)?;
    then_part(alloc, file, whole, token)
}

/// Behind a visibility that ends at `end`: it belongs to a method or an attribute that follows on its line, or else stands alone.
pub fn after_vis(
    alloc: Global,
    begun: Begun,
    vis: Vis,
    end: u32,
    around: Around,
    token: Token,
) -> Result<State, Stuck>
    ensures { Does (machine.after_vis around.file begun vis end around.decls around.frames token.kind token.spot) result }
{
    if belongs(&token) {
        visible_member(begun, vis, around, token.kind)
    } else {
        then_section(alloc, begun, vis, end, around, token)
    }
}

/// Behind `self`, before the dot of a variable.
pub fn after_self_word(begun: Begun, around: Around, kind: Kind) -> Result<State, Stuck>
    ensures { Does (machine.after_self_word around.file begun around.decls around.frames kind) result }
{
    match kind {
        Kind::Mark(Mark::Dot) => Ok(at(Focus::SelfDot { begun }, around)),
        _ => Err(Stuck::Syntax),
    }
}

/// Behind `self.`
pub fn after_self_dot(begun: Begun, around: Around, kind: Kind) -> Result<State, Stuck>
    ensures { Does (machine.after_self_dot around.file begun around.decls around.frames kind) result }
{
    match kind {
        Kind::Variable(name) => {
            let single = true;
            Ok(at(
                Focus::Variable {
                    begun,
                    single,
                    name,
                },
                around,
            ))
        }
        _ => Err(Stuck::Syntax),
    }
}

/// Behind an instance variable.
pub fn after_variable(
    alloc: Global,
    begun: Begun,
    single: bool,
    name: Word,
    around: Around,
    kind: Kind,
) -> Result<State, Stuck>
    ensures { Does (machine.after_variable around.file begun single name around.decls around.frames kind) result }
{
    match kind {
        Kind::Mark(Mark::Colon) => {
            let purpose = Purpose::Variable {
                begun,
                single,
                name,
            };
            let inner = start(alloc);
            typed_at(alloc, purpose, inner, around)
        }
        _ => Err(Stuck::Syntax),
    }
}
