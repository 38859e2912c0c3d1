//! Methods and attributes.

ghost use Rattle.std.specs.Prelude.{ℕ, ◌≡◌, ◌<◌, ◌∷◌, List, length, Some, IfOk, OnOk};
ghost use Rattle.rbs_terminals.specs.declared.token.Token.{Token};
ghost use Rattle.rbs_terminals.specs.declared.token.Spot.{Spot};
ghost use Rattle.rbs_terminals.specs.declared.token.Keyword.{Keyword};
ghost use Rattle.rbs_terminals.specs.declared.token.Keyword.TheVariants as keywords;
ghost use Rattle.sig_model.specs.PlainMember.{plain_member};
ghost use Rattle.rbs_types.specs.Symbols.{word};
ghost use Rattle.rbs_phrases.specs.Fronts.{whole};
ghost use Rattle.rbs_declarations.specs.Words.{attribute_of, end_at};
ghost use Rattle.rbs_declarations.specs.Grammar.{Visible};
ghost use Rattle.rbs_files.specs.Within.{IsMethod, IsMember, IsInterfaceMember};

use crate::method_names::{name_on, single_name_on};
use crate::overloads::overloads_on;
use crate::types::type_on;
use rbs_declarations::built::{attribute, method};
use rbs_declarations::words::attribute_of;
use rbs_phrases::{Cursor, Unread, word_of};
use rbs_terminals::{Keyword, Mark};
use sig_model::decl::{AttrKind, Member, Vis};
use std::alloc::Global;

/// A method behind its `def`, of this visibility where one is said.
fn method_on(
    alloc: Global,
    cursor: &mut Cursor,
    room: u32,
    vis: Option<Vis>,
) -> Result<Member, Unread>
    ensures phrase { (s : Spot) → (last : ℕ) → IfOk result (λ m. IsMethod room last vis (plain_member m) (end_at last cursor.new.rest) (word keywords.Def s ∷ cursor.old.rest) cursor.new.rest) }
    ensures kept { OnOk result (whole cursor.new ≡ whole cursor.old) }
    ensures shorter { OnOk result (length cursor.new.rest < length cursor.old.rest) }
{
    let (single, name) = single_name_on(alloc, cursor)?;
    cursor.expect(Mark::Colon)?;
    let overloads = overloads_on(alloc, cursor, room)?;
    Ok(method(vis, single, name, overloads))
}

/// An attribute with these accessors, behind the keyword that begins it, of this visibility where one is said.
fn attribute_on(
    alloc: Global,
    cursor: &mut Cursor,
    room: u32,
    vis: Option<Vis>,
    accessors: AttrKind,
) -> Result<Member, Unread>
    ensures phrase { (k : Keyword) → attribute_of k ≡ Some accessors → (s : Spot) → (ts : List Token) → (last : ℕ) → Visible vis ts (word k s ∷ cursor.old.rest)
        → IfOk result (λ m. IsMember room last (plain_member m) (end_at last cursor.new.rest) ts cursor.new.rest) }
    ensures kept { OnOk result (whole cursor.new ≡ whole cursor.old) }
    ensures shorter { OnOk result (length cursor.new.rest < length cursor.old.rest) }
{
    let kind = cursor.kind()?;
    let name = word_of(alloc, kind)?;
    cursor.expect(Mark::Colon)?;
    let ty = type_on(alloc, cursor, room)?;
    Ok(attribute(vis, accessors, name, ty))
}

/// A method or an attribute, behind the keyword that begins it, of this visibility where one is said.
pub fn seen_from(
    alloc: Global,
    cursor: &mut Cursor,
    room: u32,
    vis: Option<Vis>,
    keyword: Keyword,
) -> Result<Member, Unread>
    ensures phrase { (s : Spot) → (ts : List Token) → (last : ℕ) → Visible vis ts (word keyword s ∷ cursor.old.rest) → IfOk result (λ m. IsMember room last (plain_member m) (end_at last cursor.new.rest) ts cursor.new.rest) }
    ensures kept { OnOk result (whole cursor.new ≡ whole cursor.old) }
    ensures shorter { OnOk result (length cursor.new.rest < length cursor.old.rest) }
{
    match keyword {
        Keyword::Def => method_on(alloc, cursor, room, vis),
        _ => match attribute_of(keyword) {
            Some(accessors) => attribute_on(alloc, cursor, room, vis, accessors),
            None => Err(Unread::Other),
        },
    }
}

/// A method of an interface, behind its `def`.
pub fn interface_method_on(alloc: Global, cursor: &mut Cursor, room: u32) -> Result<Member, Unread>
    ensures phrase { (s : Spot) → (last : ℕ) → IfOk result (λ m. IsInterfaceMember room last (plain_member m) (end_at last cursor.new.rest) (word keywords.Def s ∷ cursor.old.rest) cursor.new.rest) }
    ensures kept { OnOk result (whole cursor.new ≡ whole cursor.old) }
    ensures shorter { OnOk result (length cursor.new.rest < length cursor.old.rest) }
{
    let name = name_on(alloc, cursor)?;
    cursor.expect(Mark::Colon)?;
    let overloads = overloads_on(alloc, cursor, room)?;
    Ok(method(None, false, name, overloads))
}
