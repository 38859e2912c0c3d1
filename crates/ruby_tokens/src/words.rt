//! The words of Ruby text.

ghost use Rattle.std.specs.Prelude.{◌≡◌, ◌+◌, ◌^◌, ◌<◌};
ghost use Rattle.names.specs.Places.{is_among};
ghost use Rattle.ruby_tokens.specs.Machine as machine;
ghost use Rattle.ruby_tokens.specs.Does.{Does};
ghost use Rattle.ruby_tokens.specs.Words.{keywords, word_kind};

use crate::appended::with_character;
use crate::begin::behind;
use crate::listed::is_listed;
use crate::mode::{Lexer, Mode};
use crate::refused::Refused;
use crate::token::{Kind, Token};
use plain_data::{Many, Word};
use profile_words::{begins_upper, is_interface_name};
use source_text::is_name_character;
use std::alloc::Global;

/// The words that are no name, beside `class`, `def`, `end` and `nil`.
const KEYWORDS: [&str; 43] = [
    "module",
    "alias",
    "if",
    "unless",
    "elsif",
    "else",
    "then",
    "while",
    "do",
    "return",
    "break",
    "next",
    "yield",
    "super",
    "self",
    "true",
    "false",
    "private",
    "public",
    "include",
    "extend",
    "prepend",
    "attr_reader",
    "attr_writer",
    "attr_accessor",
    "case",
    "for",
    "until",
    "begin",
    "rescue",
    "ensure",
    "retry",
    "redo",
    "undef",
    "and",
    "or",
    "not",
    "BEGIN",
    "END",
    "__FILE__",
    "__LINE__",
    "__method__",
    "__END__",
];

fn is_keyword(word: &str) -> bool
    ensures { result ≡ is_among word.now keywords }
{
    is_listed(word, &KEYWORDS)
}

/// What a word is, by its letters: the name of an interface is no name here.
pub fn word_kind(word: Word) -> Kind
    ensures { result ≡ word_kind word }
{
    let text = word.as_str();
    if text == "class" {
        Kind::Class
    } else if text == "def" {
        Kind::Def
    } else if text == "end" {
        Kind::End
    } else if text == "nil" {
        Kind::Nil
    } else if is_keyword(text) {
        Kind::Other
    } else if is_interface_name(text.as_bytes()) {
        Kind::Other
    } else if begins_upper(text.as_bytes()) {
        Kind::Upper(word)
    } else {
        Kind::Name(word)
    }
}

/// In a word.
pub fn in_word(
    alloc: Global,
    tokens: Many<Token>,
    start: u32,
    text: Word,
    at: u32,
    c: char,
) -> Result<Lexer, Refused>
    requires { at + 1 < 2 ^ 32 }
    ensures { Does (machine.in_word tokens start text at c) result }
{
    if is_name_character(c) {
        let text = with_character(text, c)?;
        return Ok(Lexer {
            tokens,
            mode: Mode::Word { start, text },
        });
    }
    behind(alloc, tokens, word_kind(text), start, at, c)
}
