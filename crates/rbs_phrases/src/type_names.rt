//! Names of types.

ghost use Rattle.std.specs.Prelude.{◌≡◌, ◌≤◌, ◌<◌, ◌&&◌, ◌∷◌, List, length, true, IfOk, OnOk};
ghost use Rattle.rbs_terminals.specs.declared.token.Token.{Token};
ghost use Rattle.rbs_terminals.specs.declared.token.Spot.{Spot};
ghost use Rattle.sig_model.specs.declared.ty.TypeName.{TypeName};
ghost use Rattle.rbs_types.specs.Symbols.{token, scope_follows};
ghost use Rattle.rbs_types.specs.Grammar as grammar;
ghost use Rattle.rbs_types.specs.Grammar.{Words, Name};
ghost use Rattle.rbs_phrases.specs.Fronts.{whole};
ghost use Rattle.rbs_phrases.specs.Ahead.{on_line_next};
ghost use Rattle.rbs_phrases.specs.Uses.{use_of, is_upper, Ends};

use crate::cursor::Cursor;
use crate::unread::Unread;
use rbs_terminals::{Gap, Kind, Mark, is_mark};
use rbs_types::{grown, no_name, root};
use sig_model::ty::TypeName;
use std::alloc::Global;

/// What a name may name.
#[derive(Clone, Copy, Debug, PartialEq, Eq)]
pub enum Use {
    /// A class, an interface or an alias.
    Type,
    /// A class or a module.
    Class,
    Interface,
    Alias,
    ClassOrInterface,
}

impl Use {
    fn ends_capital(self) -> bool
        ensures { result ≡ grammar.ends_capital (use_of self) }
    {
        match self {
            Use::Type | Use::Class | Use::ClassOrInterface => true,
            Use::Interface | Use::Alias => false,
        }
    }

    fn ends_interface(self) -> bool
        ensures { result ≡ grammar.ends_interface (use_of self) }
    {
        match self {
            Use::Type | Use::Interface | Use::ClassOrInterface => true,
            Use::Class | Use::Alias => false,
        }
    }

    fn ends_small(self) -> bool
        ensures { result ≡ grammar.ends_small (use_of self) }
    {
        match self {
            Use::Type | Use::Alias => true,
            Use::Class | Use::Interface | Use::ClassOrInterface => false,
        }
    }
}

/// The next terminal stands on the line of the one before it.
#[inline(always)]
pub fn on_line_next(cursor: &Cursor) -> bool
    ensures { result ≡ on_line_next cursor.now.rest }
{
    match cursor.gap() {
        Some(Gap::Joined | Gap::Blank) => true,
        Some(Gap::Line) | None => false,
    }
}

/// A `::` follows on the line.
#[inline(always)]
pub fn scope_next(cursor: &Cursor) -> bool
    ensures { result ≡ scope_follows cursor.now.rest }
{
    cursor.is_next(Mark::Scope) && on_line_next(cursor)
}

fn is_upper(kind: &Kind) -> bool
    ensures { result ≡ is_upper kind.now }
{
    matches!(kind, Kind::Upper(_))
}

/// The terminal that was taken last is a capital word, and a `::` follows on its line.
#[inline(always)]
fn goes_on(kind: &Kind, cursor: &Cursor) -> bool
    ensures { result ≡ (is_upper kind.now && scope_follows cursor.now.rest) }
{
    is_upper(kind) && scope_next(cursor)
}

/// The name with this terminal as its last word.
#[inline(always)]
fn ended(name: TypeName, usage: Use, kind: Kind) -> Result<TypeName, Unread>
    ensures { IfOk result (λ n. Ends (use_of usage) name kind n) }
{
    let (word, fits) = match kind {
        Kind::Upper(word) => (word, usage.ends_capital()),
        Kind::Interface(word) => (word, usage.ends_interface()),
        Kind::Lower(word) => (word, usage.ends_small()),
        _ => return Err(Unread::Other),
    };
    if fits {
        Ok(grown(name, word)?)
    } else {
        Err(Unread::Other)
    }
}

/// Behind a capital word and the `::` behind it: the name with that word, and the terminal behind the `::`.
fn outer_on(cursor: &mut Cursor, name: TypeName, kind: Kind) -> Result<(TypeName, Kind), Unread>
    requires { (is_upper kind && scope_follows cursor.old.rest) ≡ true }
    ensures phrase { (s : Spot) → (u : grammar.Use) → (m : TypeName) → (rest : List Token)
        → IfOk result (λ found. ((s' : Spot) → Words u found.0 m (token found.1 s' ∷ cursor.new.rest) rest) → Words u name m (token kind s ∷ cursor.old.rest) rest) }
    ensures kept { OnOk result (whole cursor.new ≡ whole cursor.old) }
    ensures shorter { OnOk result (length cursor.new.rest < length cursor.old.rest) }
{
    match kind {
        Kind::Upper(word) => {
            let name = grown(name, word)?;
            cursor.pass()?;
            Ok((name, cursor.kind()?))
        }
        _ => Err(Unread::Other),
    }
}

/// What is left of a name, from its next word on, which is this terminal.
#[inline(always)]
fn words_from(
    cursor: &mut Cursor,
    usage: Use,
    before: TypeName,
    kind: Kind,
) -> Result<TypeName, Unread>
    ensures phrase { (s : Spot) → IfOk result (λ n. Words (use_of usage) before n (token kind s ∷ cursor.old.rest) cursor.new.rest) }
    ensures kept { OnOk result (whole cursor.new ≡ whole cursor.old) }
    ensures shorter { OnOk result (length cursor.new.rest ≤ length cursor.old.rest) }
{
    let mut name = before;
    let mut kind = kind;
    while goes_on(&kind, cursor) {
        (name, kind) = outer_on(cursor, name, kind)?;
    }
    ended(name, usage, kind)
}

/// A name whose first terminal is this.
#[inline(always)]
pub fn name_from(
    alloc: Global,
    cursor: &mut Cursor,
    usage: Use,
    kind: Kind,
) -> Result<TypeName, Unread>
    ensures phrase { (s : Spot) → IfOk result (λ n. Name (use_of usage) n (token kind s ∷ cursor.old.rest) cursor.new.rest) }
    ensures kept { OnOk result (whole cursor.new ≡ whole cursor.old) }
    ensures shorter { OnOk result (length cursor.new.rest ≤ length cursor.old.rest) }
{
    if is_mark(&kind, Mark::Scope) {
        let kind = cursor.kind()?;
        words_from(cursor, usage, root(alloc), kind)
    } else {
        words_from(cursor, usage, no_name(alloc), kind)
    }
}

/// A name.
pub fn name_on(alloc: Global, cursor: &mut Cursor, usage: Use) -> Result<TypeName, Unread>
    ensures phrase { IfOk result (λ n. Name (use_of usage) n cursor.old.rest cursor.new.rest) }
    ensures kept { OnOk result (whole cursor.new ≡ whole cursor.old) }
    ensures shorter { OnOk result (length cursor.new.rest < length cursor.old.rest) }
{
    let kind = cursor.kind()?;
    name_from(alloc, cursor, usage, kind)
}
