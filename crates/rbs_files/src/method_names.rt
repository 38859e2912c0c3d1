//! Names of methods.

ghost use Rattle.std.specs.Prelude.{◌≡◌, ◌≤◌, ◌<◌, ◌∷◌, ◌++◌, List, length, Some, IfOk, IfSome, OnOk};
ghost use Rattle.rbs_terminals.specs.declared.token.Token.{Token};
ghost use Rattle.rbs_terminals.specs.declared.token.Spot.{Spot};
ghost use Rattle.rbs_terminals.specs.declared.token.Mark.{Mark};
ghost use Rattle.rbs_types.specs.Symbols.{token};
ghost use Rattle.rbs_phrases.specs.Fronts.{whole};
ghost use Rattle.rbs_declarations.specs.Words as words;
ghost use Rattle.rbs_declarations.specs.Grammar.{Marks, Single, MethodName};
ghost use Rattle.rbs_files.specs.Behind as behind;

use plain_data::Word;
use rbs_declarations::operators::{Operator, begun_by, extended, is_operator, operator_text};
use rbs_declarations::words::{ending_of, is_keyword, method_word};
use rbs_phrases::{Cursor, Unread, scope_next};
use rbs_terminals::{Gap, Keyword, Kind, Mark};
use std::alloc::Global;

/// The mark that stands directly behind the terminal that was taken last, if one does.
pub fn joined_mark(cursor: &Cursor) -> Option<Mark>
    ensures { result ≡ behind.joined_mark cursor.now.rest }
{
    if joined_next(cursor) {
        cursor.mark()
    } else {
        None
    }
}

/// The next terminal stands directly behind the one before it.
fn joined_next(cursor: &Cursor) -> bool
    ensures { result ≡ behind.joined_next cursor.now.rest }
{
    match cursor.gap() {
        Some(Gap::Joined) => true,
        Some(Gap::Blank | Gap::Line) | None => false,
    }
}

/// What an operator becomes by the next terminal, where that goes on with it.
fn extension(cursor: &Cursor, operator: Operator) -> Option<Operator>
    ensures { result ≡ words.extension operator cursor.now.rest }
{
    match joined_mark(cursor) {
        Some(mark) => extended(operator, mark),
        None => None,
    }
}

/// The operator that begins with this one, of which the first mark was taken.
fn marks_on(cursor: &mut Cursor, begun: Operator) -> Result<Operator, Unread>
    ensures phrase { IfOk result (λ operator. Marks begun operator cursor.old.rest cursor.new.rest) }
    ensures kept { OnOk result (whole cursor.new ≡ whole cursor.old) }
    ensures shorter { OnOk result (length cursor.new.rest ≤ length cursor.old.rest) }
{
    let mut operator = begun;
    while let Some(longer) = extension(cursor, operator) {
        cursor.pass()?;
        operator = longer;
    }
    if is_operator(operator) {
        Ok(operator)
    } else {
        Err(Unread::Other)
    }
}

/// The operator that a terminal begins, if it begins one.
fn operator_at(kind: &Kind) -> Option<Operator>
    ensures { result ≡ behind.operator_at kind.now }
{
    match kind {
        Kind::Mark(mark) => begun_by(*mark),
        _ => None,
    }
}

/// The terminal is a capital word.
fn is_capital(kind: &Kind) -> bool
    ensures { result ≡ words.is_capital kind.now }
{
    matches!(kind, Kind::Upper(_))
}

/// The word that this terminal is.
pub fn method_word_of(alloc: Global, kind: Kind) -> Result<Word, Unread>
    ensures { IfOk result (λ word. words.method_word kind ≡ Some word) }
{
    match method_word(alloc, kind)? {
        Some(word) => Ok(word),
        None => Err(Unread::Other),
    }
}

/// The ending of a word that stands directly behind it, if one does.
fn ending_next(cursor: &Cursor) -> Option<&'static str>
    ensures { IfSome result (λ ending. (m : Mark) × (behind.joined_mark cursor.now.rest ≡ Some m) × (words.ending_of m ≡ Some ending.now)) }
{
    match joined_mark(cursor) {
        Some(mark) => ending_of(mark),
        None => None,
    }
}

/// The word with this behind it.
pub fn with_ending(word: Word, ending: &str) -> Result<Word, Unread>
    ensures { IfOk result (λ longer. longer ≡ word ++ ending.now) }
{
    let mut word = word;
    word.push_str(ending)?;
    Ok(word)
}

/// The name of a method, which begins with this word.
fn word_from(alloc: Global, cursor: &mut Cursor, kind: Kind) -> Result<Word, Unread>
    ensures phrase { (s : Spot) → IfOk result (λ name. MethodName name (token kind s ∷ cursor.old.rest) cursor.new.rest) }
    ensures kept { OnOk result (whole cursor.new ≡ whole cursor.old) }
    ensures shorter { OnOk result (length cursor.new.rest ≤ length cursor.old.rest) }
{
    let capital = is_capital(&kind);
    let word = method_word_of(alloc, kind)?;
    if let Some(ending) = ending_next(cursor) {
        cursor.pass()?;
        with_ending(word, ending)
    } else if capital && scope_next(cursor) {
        Err(Unread::Other)
    } else {
        Ok(word)
    }
}

/// The name of a method, which begins with this terminal.
pub fn name_from(alloc: Global, cursor: &mut Cursor, kind: Kind) -> Result<Word, Unread>
    ensures phrase { (s : Spot) → IfOk result (λ name. MethodName name (token kind s ∷ cursor.old.rest) cursor.new.rest) }
    ensures kept { OnOk result (whole cursor.new ≡ whole cursor.old) }
    ensures shorter { OnOk result (length cursor.new.rest ≤ length cursor.old.rest) }
{
    match operator_at(&kind) {
        Some(begun) => {
            let operator = marks_on(cursor, begun)?;
            Ok(Word::of(alloc, operator_text(operator))?)
        }
        None => word_from(alloc, cursor, kind),
    }
}

/// The name of a method.
pub fn name_on(alloc: Global, cursor: &mut Cursor) -> Result<Word, Unread>
    ensures phrase { IfOk result (λ name. MethodName name cursor.old.rest cursor.new.rest) }
    ensures kept { OnOk result (whole cursor.new ≡ whole cursor.old) }
    ensures shorter { OnOk result (length cursor.new.rest < length cursor.old.rest) }
{
    let kind = cursor.kind()?;
    name_from(alloc, cursor, kind)
}

/// The name of a method, and whether `self.` stands before it.
pub fn single_name_on(alloc: Global, cursor: &mut Cursor) -> Result<(bool, Word), Unread>
    ensures phrase { IfOk result (λ found. (mid : List Token) × Single found.0 cursor.old.rest mid × MethodName found.1 mid cursor.new.rest) }
    ensures kept { OnOk result (whole cursor.new ≡ whole cursor.old) }
    ensures shorter { OnOk result (length cursor.new.rest < length cursor.old.rest) }
{
    let kind = cursor.kind()?;
    if is_keyword(&kind, Keyword::SelfWord) && cursor.is_next(Mark::Dot) {
        cursor.pass()?;
        Ok((true, name_on(alloc, cursor)?))
    } else {
        Ok((false, name_from(alloc, cursor, kind)?))
    }
}
