//! Aliases of methods.

ghost use Rattle.std.specs.Prelude.{◌≡◌, ◌<◌, ◌∷◌, List, length, Some, true, IfOk, OnOk};
ghost use Rattle.rbs_terminals.specs.declared.token.Token.{Token};
ghost use Rattle.rbs_terminals.specs.declared.token.Spot.{Spot};
ghost use Rattle.rbs_terminals.specs.declared.token.Kind.{Kind};
ghost use Rattle.rbs_types.specs.Symbols.{token};
ghost use Rattle.rbs_phrases.specs.Fronts.{whole};
ghost use Rattle.rbs_declarations.specs.Words.{method_word};
ghost use Rattle.rbs_declarations.specs.Grammar.{MethodName};
ghost use Rattle.rbs_files.specs.Behind as behind;

use crate::method_names::{joined_mark, method_word_of, name_from, name_on, with_ending};
use plain_data::Word;
use rbs_phrases::{Cursor, Unread};
use rbs_terminals::{Kind, Mark};
use std::alloc::Global;

/// An `=` stands directly behind the terminal that was taken last.
fn equals_next(cursor: &Cursor) -> bool
    ensures { result ≡ behind.equals_follows cursor.now.rest }
{
    matches!(joined_mark(cursor), Some(Mark::Equals))
}

/// The terminal is a mark.
fn is_any_mark(kind: &Kind) -> bool {
    matches!(kind, Kind::Mark(_))
}

/// The names of an alias, whose new one begins with this word, directly behind which an `=` stands. Where another one stands directly
/// behind that, but not a third, they are the old name.
fn equalled_from(alloc: Global, cursor: &mut Cursor, word: Word) -> Result<(Word, Word), Unread>
    requires { behind.equals_follows cursor.old.rest ≡ true }
    ensures phrase { (k : Kind) → (s : Spot) → method_word k ≡ Some word → IfOk result (λ found. (mid : List Token) × MethodName found.0 (token k s ∷ cursor.old.rest) mid × MethodName found.1 mid cursor.new.rest) }
    ensures kept { OnOk result (whole cursor.new ≡ whole cursor.old) }
    ensures shorter { OnOk result (length cursor.new.rest < length cursor.old.rest) }
{
    cursor.pass()?;
    if !equals_next(cursor) {
        let new = with_ending(word, "=")?;
        return Ok((new, name_on(alloc, cursor)?));
    }
    cursor.pass()?;
    let old = Word::of(alloc, "==")?;
    if equals_next(cursor) {
        cursor.pass()?;
        Ok((with_ending(word, "=")?, old))
    } else {
        Ok((word, old))
    }
}

/// The names of an alias: the new one, and the old one.
pub fn alias_on(alloc: Global, cursor: &mut Cursor) -> Result<(Word, Word), Unread>
    ensures phrase { IfOk result (λ found. (mid : List Token) × MethodName found.0 cursor.old.rest mid × MethodName found.1 mid cursor.new.rest) }
    ensures kept { OnOk result (whole cursor.new ≡ whole cursor.old) }
    ensures shorter { OnOk result (length cursor.new.rest < length cursor.old.rest) }
{
    let kind = cursor.kind()?;
    if equals_next(cursor) && !is_any_mark(&kind) {
        let word = method_word_of(alloc, kind)?;
        equalled_from(alloc, cursor, word)
    } else {
        let new = name_from(alloc, cursor, kind)?;
        let old = name_on(alloc, cursor)?;
        Ok((new, old))
    }
}
