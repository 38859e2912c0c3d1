//! The words that the grammar keeps for itself.

ghost use Rattle.std.specs.Prelude.{◌≡◌, Some, IfSome};
ghost use Rattle.rbs_terminals.specs.Keywords as words;

use crate::token::Keyword;
use sig_model::ty::BaseTy;

/// How a keyword is written.
pub fn keyword_text(keyword: Keyword) -> &'static str
    ensures value { result.now ≡ words.keyword_text keyword }
    ensures back { words.keyword_of result.now ≡ Some keyword }
{
    match keyword {
        Keyword::Class => "class",
        Keyword::Module => "module",
        Keyword::Interface => "interface",
        Keyword::Type => "type",
        Keyword::Def => "def",
        Keyword::End => "end",
        Keyword::Include => "include",
        Keyword::Extend => "extend",
        Keyword::Prepend => "prepend",
        Keyword::Alias => "alias",
        Keyword::AttrReader => "attr_reader",
        Keyword::AttrWriter => "attr_writer",
        Keyword::AttrAccessor => "attr_accessor",
        Keyword::Private => "private",
        Keyword::Public => "public",
        Keyword::Singleton => "singleton",
        Keyword::Unchecked => "unchecked",
        Keyword::Out => "out",
        Keyword::In => "in",
        Keyword::SelfWord => "self",
        Keyword::Instance => "instance",
        Keyword::True => "true",
        Keyword::False => "false",
        Keyword::Nil => "nil",
        Keyword::Bool => "bool",
        Keyword::Void => "void",
        Keyword::Top => "top",
        Keyword::Bot => "bot",
        Keyword::Untyped => "untyped",
    }
}

/// The keyword among these that a word is.
fn keyword_among(word: &[u8], keywords: &[Keyword]) -> Option<Keyword>
    ensures { result ≡ words.keyword_among word.now keywords.now }
{
    keywords
        .iter()
        .copied()
        .find(|keyword| word == keyword_text(*keyword).as_bytes())
}

/// The keyword that a word is, or `None` where it is a name.
pub fn keyword_of(word: &[u8]) -> Option<Keyword>
    ensures value { result ≡ words.keyword_of word.now }
    ensures text { IfSome result (λ keyword. words.keyword_text keyword ≡ word.now) }
{
    match word.len() {
        2 => keyword_among(word, &[Keyword::In]),
        3 => keyword_among(
            word,
            &[
                Keyword::Def,
                Keyword::End,
                Keyword::Out,
                Keyword::Nil,
                Keyword::Top,
                Keyword::Bot,
            ],
        ),
        4 => keyword_among(
            word,
            &[
                Keyword::Type,
                Keyword::SelfWord,
                Keyword::True,
                Keyword::Bool,
                Keyword::Void,
            ],
        ),
        5 => keyword_among(word, &[Keyword::Class, Keyword::Alias, Keyword::False]),
        6 => keyword_among(word, &[Keyword::Module, Keyword::Extend, Keyword::Public]),
        7 => keyword_among(
            word,
            &[
                Keyword::Include,
                Keyword::Prepend,
                Keyword::Private,
                Keyword::Untyped,
            ],
        ),
        8 => keyword_among(word, &[Keyword::Instance]),
        9 => keyword_among(
            word,
            &[Keyword::Interface, Keyword::Singleton, Keyword::Unchecked],
        ),
        11 => keyword_among(word, &[Keyword::AttrReader, Keyword::AttrWriter]),
        13 => keyword_among(word, &[Keyword::AttrAccessor]),
        _ => None,
    }
}

/// The type that a keyword is, if it is one.
pub fn base_of(keyword: Keyword) -> Option<BaseTy>
    ensures { result ≡ words.base_of keyword }
{
    match keyword {
        Keyword::True => Some(BaseTy::True),
        Keyword::False => Some(BaseTy::False),
        Keyword::Nil => Some(BaseTy::Nil),
        Keyword::Bool => Some(BaseTy::Bool),
        Keyword::Void => Some(BaseTy::Void),
        Keyword::Top => Some(BaseTy::Top),
        Keyword::Bot => Some(BaseTy::Bot),
        Keyword::SelfWord => Some(BaseTy::SelfTy),
        Keyword::Instance => Some(BaseTy::Instance),
        Keyword::Class => Some(BaseTy::ClassTy),
        Keyword::Untyped => Some(BaseTy::Untyped),
        _ => None,
    }
}
