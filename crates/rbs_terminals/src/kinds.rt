//! The terminal that a token is, by its text.

ghost use Rattle.std.specs.Prelude.{◌≡◌, ◌-◌, ◌≤◌, ◌↔◌, length, IsTrue, IfOk, IsUtf8};
ghost use Rattle.rbs_lexer.specs.Kinds.{IsToken};
ghost use Rattle.rbs_lexer.specs.Division.{IsFit};
ghost use Rattle.rbs_terminals.specs.declared.token.Kind.TheVariants as variant;
ghost use Rattle.rbs_terminals.specs.Keywords.{keyword_of};
ghost use Rattle.rbs_terminals.specs.Kinds as kinds;
ghost use Rattle.rbs_terminals.specs.Marks.{mark_of};

use crate::keywords::{keyword_of, keyword_text};
use crate::marks::mark_of;
use crate::token::{Kind, Mark};
use crate::values::{integer_value, string_value, word_of};
use plain_data::{NoMemory, Word};
use rbs_lexer::TokenKind;
use std::alloc::Global;

/// The terminal is this mark.
pub fn is_mark(kind: &Kind, mark: Mark) -> bool
    ensures { IsTrue result ↔ (kind.now ≡ variant.Mark mark) }
{
    match kind {
        Kind::Mark(found) => *found == mark,
        _ => false,
    }
}

/// A word with a small letter or an underscore, keywords among them.
fn word_kind(alloc: Global, text: &[u8]) -> Result<Kind, NoMemory>
    requires { IsUtf8 text.now }
    ensures { IfOk result (λ kind. kind ≡ kinds.word_kind text.now (keyword_of text.now)) }
{
    match keyword_of(text) {
        Some(keyword) => Ok(Kind::Keyword(keyword)),
        None => Ok(Kind::Lower(word_of(alloc, text)?)),
    }
}

fn mark_kind(text: &[u8]) -> Kind
    ensures { result ≡ kinds.mark_kind (mark_of text.now) }
{
    match mark_of(text) {
        Some(mark) => Kind::Mark(mark),
        None => Kind::Stray,
    }
}

/// The terminal that is a token of this kind with this text.
pub fn kind_of(alloc: Global, kind: TokenKind, text: &[u8]) -> Result<Kind, NoMemory>
    requires token { IsToken kind text.now }
    requires fit { IsFit kind text.now }
    ensures { IfOk result (λ found. found ≡ kinds.kind_at kind text.now) }
{
    match kind {
        TokenKind::Ident => word_kind(alloc, text),
        TokenKind::Upper => Ok(Kind::Upper(word_of(alloc, text)?)),
        TokenKind::IfaceName => Ok(Kind::Interface(word_of(alloc, text)?)),
        TokenKind::Ivar => Ok(Kind::Variable(word_of(alloc, &text[1..])?)),
        TokenKind::Int => Ok(Kind::Integer(integer_value(text))),
        TokenKind::Str => Ok(Kind::Text(string_value(alloc, &text[1..text.len() - 1])?)),
        TokenKind::Sym => Ok(Kind::Symbol(word_of(alloc, &text[1..])?)),
        TokenKind::Mark => Ok(mark_kind(text)),
        TokenKind::Annotation => Ok(Kind::Annotation(word_of(alloc, &text[3..text.len() - 1])?)),
        TokenKind::Comment => Ok(Kind::Stray),
    }
}

/// The word that a terminal is where a keyword may be a name, or `None` where it is neither a small word nor a keyword.
pub fn lower_of(alloc: Global, kind: Kind) -> Result<Option<Word>, NoMemory>
    ensures { IfOk result (λ word. word ≡ kinds.lower_of kind) }
{
    match kind {
        Kind::Lower(word) => Ok(Some(word)),
        Kind::Keyword(keyword) => Ok(Some(Word::of(alloc, keyword_text(keyword))?)),
        _ => Ok(None),
    }
}
