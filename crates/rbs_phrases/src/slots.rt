//! What stands before the type of a parameter or of a key, and behind that of a parameter.

ghost use Rattle.std.specs.Prelude.{ℕ, ◌≡◌, ◌≤◌, ◌<◌, ◌∷◌, List, length, Some, true, IfOk, OnOk};
ghost use Rattle.rbs_terminals.specs.declared.token.Token.{Token};
ghost use Rattle.rbs_terminals.specs.declared.token.Spot.{Spot};
ghost use Rattle.rbs_terminals.specs.declared.token.Mark.TheVariants as mark;
ghost use Rattle.rbs_terminals.specs.Kinds as kinds;
ghost use Rattle.sig_model.specs.PlainTy.{PlainTy};
ghost use Rattle.rbs_types.specs.Symbols.{token};
ghost use Rattle.rbs_types.specs.Plains.{is_new};
ghost use Rattle.rbs_types.specs.Grammar.{Spells, type};
ghost use Rattle.rbs_phrases.specs.Fronts.{whole, Marked};
ghost use Rattle.rbs_phrases.specs.Slots as slots;
ghost use Rattle.rbs_phrases.specs.Slots.{Fills, Slotted, Keyed, asked, is_word};

use crate::cursor::Cursor;
use crate::unread::Unread;
use plain_data::Word;
use rbs_terminals::{Kind, Mark, Sort, is_mark, lower_of};
use rbs_types::{Keys, Parameters, Slot, takes_optional, takes_positional};
use std::alloc::Global;

/// The terminal is a word, which may be the name of a key or of a parameter.
pub fn is_word(kind: &Kind) -> bool
    ensures { result ≡ is_word kind.now }
{
    matches!(kind, Kind::Lower(_) | Kind::Keyword(_))
}

/// The word that a terminal is.
#[inline(always)]
pub fn word_of(alloc: Global, kind: Kind) -> Result<Word, Unread>
    ensures { IfOk result (λ word. kinds.lower_of kind ≡ Some word) }
{
    match lower_of(alloc, kind)? {
        Some(word) => Ok(word),
        None => Err(Unread::Other),
    }
}

/// The name of a key, which is this terminal and which none of these keys has, and the colon behind it.
#[inline(always)]
fn key_from(alloc: Global, cursor: &mut Cursor, keys: &Keys, kind: Kind) -> Result<Word, Unread>
    ensures name { IfOk result (λ word. (kinds.lower_of kind ≡ Some word) × (is_new word keys.now ≡ true)) }
    ensures colon { OnOk result (Marked mark.Colon cursor.old.rest cursor.new.rest) }
    ensures kept { OnOk result (whole cursor.new ≡ whole cursor.old) }
    ensures shorter { OnOk result (length cursor.new.rest < length cursor.old.rest) }
{
    let word = word_of(alloc, kind)?;
    cursor.expect(Mark::Colon)?;
    if keys.is_new(&word) {
        Ok(word)
    } else {
        Err(Unread::Other)
    }
}

/// What stands before the type of a key: its name, and whether it is needed.
pub fn key_on(alloc: Global, cursor: &mut Cursor, keys: &Keys) -> Result<(Word, bool), Unread>
    ensures phrase { IfOk result (λ key. Keyed keys.now key.0 key.1 cursor.old.rest cursor.new.rest) }
    ensures kept { OnOk result (whole cursor.new ≡ whole cursor.old) }
    ensures shorter { OnOk result (length cursor.new.rest < length cursor.old.rest) }
{
    let asked = cursor.skip(Mark::Question)?;
    let kind = cursor.kind()?;
    let word = key_from(alloc, cursor, keys, kind)?;
    Ok((word, !asked))
}

/// A positional parameter may follow, an optional one where it isn't needed.
fn takes(before: &Parameters, needed: bool) -> bool
    ensures { result ≡ slots.takes needed before.now }
{
    if needed {
        takes_positional(before)
    } else {
        takes_optional(before)
    }
}

fn slot_of(needed: bool) -> Slot
    ensures { result ≡ slots.slot_of needed }
{
    if needed {
        Slot::Positional
    } else {
        Slot::Optional
    }
}

/// What stands before the type of a parameter that begins with this terminal, or with a question mark and this one where it isn't needed;
/// and the first terminal of the type.
#[inline(always)]
fn slot_from(
    alloc: Global,
    cursor: &mut Cursor,
    before: &Parameters,
    needed: bool,
    kind: Kind,
) -> Result<(Slot, Kind), Unread>
    ensures phrase { (s s' : Spot) → IfOk result (λ found. (s'' : Spot) × Slotted found.0 before.now (asked needed s (token kind s' ∷ cursor.old.rest)) (token found.1 s'' ∷ cursor.new.rest)) }
    ensures kept { OnOk result (whole cursor.new ≡ whole cursor.old) }
    ensures shorter { OnOk result (length cursor.new.rest ≤ length cursor.old.rest) }
{
    if is_word(&kind) && cursor.is_next(Mark::Colon) {
        let key = key_from(alloc, cursor, &before.keys, kind)?;
        let kind = cursor.kind()?;
        Ok((Slot::Key { key, needed }, kind))
    } else if takes(before, needed) {
        Ok((slot_of(needed), kind))
    } else {
        Err(Unread::Other)
    }
}

/// What stands before the type of a parameter, and the first terminal of the type.
pub fn slot_on(
    alloc: Global,
    cursor: &mut Cursor,
    before: &Parameters,
) -> Result<(Slot, Kind), Unread>
    ensures phrase { IfOk result (λ found. (s : Spot) × Slotted found.0 before.now cursor.old.rest (token found.1 s ∷ cursor.new.rest)) }
    ensures kept { OnOk result (whole cursor.new ≡ whole cursor.old) }
    ensures shorter { OnOk result (length cursor.new.rest < length cursor.old.rest) }
{
    let kind = cursor.kind()?;
    if is_mark(&kind, Mark::Question) {
        let kind = cursor.kind()?;
        slot_from(alloc, cursor, before, false, kind)
    } else if is_mark(&kind, Mark::Star) {
        if !takes_optional(before) {
            return Err(Unread::Other);
        }
        let kind = cursor.kind()?;
        Ok((Slot::Rest, kind))
    } else {
        slot_from(alloc, cursor, before, true, kind)
    }
}

/// The next terminal is a word.
fn word_next(cursor: &Cursor) -> bool {
    matches!(cursor.sort(), Some(Sort::Lower | Sort::Keyword(_)))
}

fn is_key(slot: &Slot) -> bool
    ensures { result ≡ slots.is_key slot.now }
{
    matches!(slot, Slot::Key { .. })
}

/// The name behind the type of a parameter, if it has one.
#[inline(always)]
pub fn name_behind(alloc: Global, cursor: &mut Cursor, slot: &Slot) -> Result<Option<Word>, Unread>
    ensures phrase { (t : PlainTy) → (ts : List Token) → Spells type t ts cursor.old.rest → IfOk result (λ name. Fills slot.now t name ts cursor.new.rest) }
    ensures kept { OnOk result (whole cursor.new ≡ whole cursor.old) }
    ensures shorter { OnOk result (length cursor.new.rest ≤ length cursor.old.rest) }
{
    if is_key(slot) {
        return Ok(None);
    }
    if !word_next(cursor) {
        return Ok(None);
    }
    let kind = cursor.kind()?;
    let word = word_of(alloc, kind)?;
    Ok(Some(word))
}
