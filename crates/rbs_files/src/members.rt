//! Members.

ghost use Rattle.std.specs.Prelude.{ℕ, ◌≡◌, ◌≤◌, ◌<◌, ◌∷◌, List, length, Some, IfOk, OnOk};
ghost use Rattle.rbs_terminals.specs.declared.token.Token.{Token};
ghost use Rattle.rbs_terminals.specs.declared.token.Spot.{Spot};
ghost use Rattle.rbs_terminals.specs.declared.token.Keyword.{Keyword};
ghost use Rattle.rbs_terminals.specs.declared.token.Keyword.TheVariants as keywords;
ghost use Rattle.rbs_terminals.specs.declared.token.Kind.TheVariants as kinds;
ghost use Rattle.sig_model.specs.PlainTy.{PlainTy};
ghost use Rattle.sig_model.specs.PlainMember as plain;
ghost use Rattle.sig_model.specs.PlainMember.{plain_member};
ghost use Rattle.rbs_types.specs.Symbols.{token, word};
ghost use Rattle.rbs_phrases.specs.Fronts.{whole};
ghost use Rattle.rbs_phrases.specs.Uses.{use_of};
ghost use Rattle.rbs_declarations.specs.Words as words;
ghost use Rattle.rbs_declarations.specs.Words.{end_at};
ghost use Rattle.rbs_declarations.specs.Grammar.{Single};
ghost use Rattle.rbs_files.specs.Within.{IsApplied, IsMember, IsInterfaceMember};

use crate::ends::end_here;
use crate::method_names::name_on;
use crate::methods::{interface_method_on, seen_from};
use crate::types::{applied_on, type_on};
use plain_data::Word;
use rbs_declarations::built::{method_alias, mixin, section, variable};
use rbs_declarations::words::{mixin_of, takes_vis, vis_of};
use rbs_phrases::{Cursor, Unread, Use, on_line_next};
use rbs_terminals::{Keyword, Kind, Mark};
use sig_model::decl::{Member, MixKind, Vis};
use std::alloc::Global;

/// The keyword that a terminal is.
fn keyword_of(kind: Kind) -> Result<Keyword, Unread>
    ensures { IfOk result (λ keyword. kind ≡ kinds.Keyword keyword) }
{
    match kind {
        Kind::Keyword(keyword) => Ok(keyword),
        _ => Err(Unread::Other),
    }
}

/// What is mixed in, behind the keyword that says how.
fn mixin_on(
    alloc: Global,
    cursor: &mut Cursor,
    room: u32,
    usage: Use,
    kind: MixKind,
) -> Result<Member, Unread>
    ensures phrase { IfOk result (λ m. (t : PlainTy) × (plain_member m ≡ plain.mixin kind t) × IsApplied room (use_of usage) t cursor.old.rest cursor.new.rest) }
    ensures kept { OnOk result (whole cursor.new ≡ whole cursor.old) }
    ensures shorter { OnOk result (length cursor.new.rest < length cursor.old.rest) }
{
    let ty = applied_on(alloc, cursor, room, usage)?;
    Ok(mixin(kind, ty))
}

/// A further name of a method, behind its `alias`.
fn alias_on(alloc: Global, cursor: &mut Cursor) -> Result<Member, Unread>
    ensures phrase { (room : ℕ) → (s : Spot) → (last : ℕ) → IfOk result (λ m. IsMember room last (plain_member m) (end_at last cursor.new.rest) (word keywords.Alias s ∷ cursor.old.rest) cursor.new.rest) }
    ensures kept { OnOk result (whole cursor.new ≡ whole cursor.old) }
    ensures shorter { OnOk result (length cursor.new.rest < length cursor.old.rest) }
{
    let new = name_on(alloc, cursor)?;
    let old = name_on(alloc, cursor)?;
    Ok(method_alias(new, old))
}

/// An instance variable behind its name.
fn variable_on(
    alloc: Global,
    cursor: &mut Cursor,
    room: u32,
    single: bool,
    name: Word,
) -> Result<Member, Unread>
    ensures phrase { (s : Spot) → (ts : List Token) → (last : ℕ) → Single single ts (token (kinds.Variable name) s ∷ cursor.old.rest)
        → IfOk result (λ m. IsMember room last (plain_member m) (end_at last cursor.new.rest) ts cursor.new.rest) }
    ensures kept { OnOk result (whole cursor.new ≡ whole cursor.old) }
    ensures shorter { OnOk result (length cursor.new.rest < length cursor.old.rest) }
{
    cursor.expect(Mark::Colon)?;
    let ty = type_on(alloc, cursor, room)?;
    Ok(variable(single, name, ty))
}

/// An instance variable of the class itself, behind its `self`.
fn own_variable_on(alloc: Global, cursor: &mut Cursor, room: u32) -> Result<Member, Unread>
    ensures phrase { (s : Spot) → (last : ℕ) → IfOk result (λ m. IsMember room last (plain_member m) (end_at last cursor.new.rest) (word keywords.SelfWord s ∷ cursor.old.rest) cursor.new.rest) }
    ensures kept { OnOk result (whole cursor.new ≡ whole cursor.old) }
    ensures shorter { OnOk result (length cursor.new.rest < length cursor.old.rest) }
{
    cursor.expect(Mark::Dot)?;
    match cursor.kind()? {
        Kind::Variable(name) => variable_on(alloc, cursor, room, true, name),
        _ => Err(Unread::Other),
    }
}

/// A member of a class or a module, behind the keyword that begins it, which is no visibility.
fn unseen_from(
    alloc: Global,
    cursor: &mut Cursor,
    room: u32,
    keyword: Keyword,
) -> Result<Member, Unread>
    ensures phrase { (s : Spot) → (last : ℕ) → IfOk result (λ m. IsMember room last (plain_member m) (end_at last cursor.new.rest) (word keyword s ∷ cursor.old.rest) cursor.new.rest) }
    ensures kept { OnOk result (whole cursor.new ≡ whole cursor.old) }
    ensures shorter { OnOk result (length cursor.new.rest < length cursor.old.rest) }
{
    match keyword {
        Keyword::Alias => alias_on(alloc, cursor),
        Keyword::SelfWord => own_variable_on(alloc, cursor, room),
        _ => match mixin_of(keyword) {
            Some(kind) => mixin_on(alloc, cursor, room, Use::Class, kind),
            None => seen_from(alloc, cursor, room, None, keyword),
        },
    }
}

/// A visibility that was taken last belongs to the member that follows on its line.
fn vis_belongs(cursor: &Cursor) -> bool
    ensures { result ≡ words.vis_belongs cursor.now.rest }
{
    match cursor.keyword() {
        Some(keyword) => on_line_next(cursor) && takes_vis(&Kind::Keyword(keyword)),
        None => false,
    }
}

/// The member that a visibility belongs to, or the section that it begins, behind the visibility; and where it ends.
fn vis_from(
    alloc: Global,
    cursor: &mut Cursor,
    room: u32,
    vis: Vis,
) -> Result<(Member, u32), Unread>
    ensures phrase { (k : Keyword) → words.vis_of k ≡ Some vis → (s : Spot) → cursor.old.end ≡ s.end
        → IfOk result (λ found. IsMember room (whole cursor.old).last (plain_member found.0) found.1 (word k s ∷ cursor.old.rest) cursor.new.rest) }
    ensures kept { OnOk result (whole cursor.new ≡ whole cursor.old) }
    ensures shorter { OnOk result (length cursor.new.rest ≤ length cursor.old.rest) }
{
    if !vis_belongs(cursor) {
        return Ok((section(vis), cursor.end()));
    }
    let keyword = keyword_of(cursor.kind()?)?;
    let member = seen_from(alloc, cursor, room, Some(vis), keyword)?;
    Ok((member, end_here(cursor)))
}

/// A member of a class or a module, behind the keyword that begins it, and where it ends.
fn keyword_from(
    alloc: Global,
    cursor: &mut Cursor,
    room: u32,
    keyword: Keyword,
) -> Result<(Member, u32), Unread>
    ensures phrase { (s : Spot) → cursor.old.end ≡ s.end → IfOk result (λ found. IsMember room (whole cursor.old).last (plain_member found.0) found.1 (word keyword s ∷ cursor.old.rest) cursor.new.rest) }
    ensures kept { OnOk result (whole cursor.new ≡ whole cursor.old) }
    ensures shorter { OnOk result (length cursor.new.rest ≤ length cursor.old.rest) }
{
    if let Some(vis) = vis_of(keyword) {
        return vis_from(alloc, cursor, room, vis);
    }
    let member = unseen_from(alloc, cursor, room, keyword)?;
    Ok((member, end_here(cursor)))
}

/// A member of a class or a module, which begins with this terminal, and where it ends.
pub fn member_from(
    alloc: Global,
    cursor: &mut Cursor,
    room: u32,
    kind: Kind,
) -> Result<(Member, u32), Unread>
    ensures phrase { (s : Spot) → cursor.old.end ≡ s.end → IfOk result (λ found. IsMember room (whole cursor.old).last (plain_member found.0) found.1 (token kind s ∷ cursor.old.rest) cursor.new.rest) }
    ensures kept { OnOk result (whole cursor.new ≡ whole cursor.old) }
    ensures shorter { OnOk result (length cursor.new.rest ≤ length cursor.old.rest) }
{
    match kind {
        Kind::Variable(name) => {
            let member = variable_on(alloc, cursor, room, false, name)?;
            Ok((member, end_here(cursor)))
        }
        kind => {
            let keyword = keyword_of(kind)?;
            keyword_from(alloc, cursor, room, keyword)
        }
    }
}

/// A member of an interface, behind the keyword that begins it.
fn interface_keyword_from(
    alloc: Global,
    cursor: &mut Cursor,
    room: u32,
    keyword: Keyword,
) -> Result<Member, Unread>
    ensures phrase { (s : Spot) → (last : ℕ) → IfOk result (λ m. IsInterfaceMember room last (plain_member m) (end_at last cursor.new.rest) (word keyword s ∷ cursor.old.rest) cursor.new.rest) }
    ensures kept { OnOk result (whole cursor.new ≡ whole cursor.old) }
    ensures shorter { OnOk result (length cursor.new.rest < length cursor.old.rest) }
{
    match keyword {
        Keyword::Def => interface_method_on(alloc, cursor, room),
        Keyword::Include => mixin_on(alloc, cursor, room, Use::Interface, MixKind::Include),
        _ => Err(Unread::Other),
    }
}

/// A member of an interface, which begins with this terminal, and where it ends.
pub fn interface_member_from(
    alloc: Global,
    cursor: &mut Cursor,
    room: u32,
    kind: Kind,
) -> Result<(Member, u32), Unread>
    ensures phrase { (s : Spot) → IfOk result (λ found. IsInterfaceMember room (whole cursor.old).last (plain_member found.0) found.1 (token kind s ∷ cursor.old.rest) cursor.new.rest) }
    ensures kept { OnOk result (whole cursor.new ≡ whole cursor.old) }
    ensures shorter { OnOk result (length cursor.new.rest ≤ length cursor.old.rest) }
{
    let keyword = keyword_of(kind)?;
    let member = interface_keyword_from(alloc, cursor, room, keyword)?;
    Ok((member, end_here(cursor)))
}
