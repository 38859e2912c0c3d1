//! What a terminal is, but for its text or its value.

ghost use Rattle.std.specs.Prelude.{◌≡◌, IfOk};
ghost use Rattle.rbs_lexer.specs.Kinds.{IsToken};
ghost use Rattle.rbs_lexer.specs.Division.{IsFit};
ghost use Rattle.rbs_terminals.specs.Keywords.{keyword_of};
ghost use Rattle.rbs_terminals.specs.Kinds as kinds;
ghost use Rattle.rbs_terminals.specs.Marks.{mark_of};
ghost use Rattle.rbs_terminals.specs.Sorts.{sort_of};

use crate::keywords::keyword_of;
use crate::kinds::kind_of;
use crate::marks::mark_of;
use crate::token::{Keyword, Kind, Mark};
use crate::values::word_of;
use plain_data::NoMemory;
use rbs_lexer::TokenKind;
use std::alloc::Global;

/// What a terminal is, but for its text or its value: a [`Kind`] that takes no memory.
#[derive(Clone, Copy, Debug, PartialEq, Eq)]
pub enum Sort {
    Mark(Mark),
    Keyword(Keyword),
    Lower,
    Upper,
    Interface,
    Variable,
    Integer,
    Text,
    Symbol,
    Annotation,
    PastInteger,
    Stray,
}

/// A word with a small letter or an underscore, keywords among them.
fn word_sort(text: &[u8]) -> Sort
    ensures { result ≡ sort_of (kinds.word_kind text.now (keyword_of text.now)) }
{
    match keyword_of(text) {
        Some(keyword) => Sort::Keyword(keyword),
        None => Sort::Lower,
    }
}

fn mark_sort(text: &[u8]) -> Sort
    ensures { result ≡ sort_of (kinds.mark_kind (mark_of text.now)) }
{
    match mark_of(text) {
        Some(mark) => Sort::Mark(mark),
        None => Sort::Stray,
    }
}

/// The sort of the terminal that is a token of this kind with this text.
pub fn sort_at(kind: TokenKind, text: &[u8]) -> Sort
    ensures { result ≡ sort_of (kinds.kind_at kind text.now) }
{
    match kind {
        TokenKind::Ident => word_sort(text),
        TokenKind::Upper => Sort::Upper,
        TokenKind::IfaceName => Sort::Interface,
        TokenKind::Ivar => Sort::Variable,
        TokenKind::Int => Sort::Integer,
        TokenKind::Str => Sort::Text,
        TokenKind::Sym => Sort::Symbol,
        TokenKind::Mark => mark_sort(text),
        TokenKind::Annotation => Sort::Annotation,
        TokenKind::Comment => Sort::Stray,
    }
}

/// The terminal that is a token of this kind with this text, where its sort is known.
#[inline(always)]
pub fn kind_by(alloc: Global, sort: Sort, kind: TokenKind, text: &[u8]) -> Result<Kind, NoMemory>
    requires token { IsToken kind text.now }
    requires fit { IsFit kind text.now }
    requires sort { sort ≡ sort_of (kinds.kind_at kind text.now) }
    ensures { IfOk result (λ found. found ≡ kinds.kind_at kind text.now) }
{
    match sort {
        Sort::Mark(mark) => Ok(Kind::Mark(mark)),
        Sort::Keyword(keyword) => Ok(Kind::Keyword(keyword)),
        Sort::Lower => Ok(Kind::Lower(word_of(alloc, text)?)),
        _ => kind_of(alloc, kind, text),
    }
}
