//! Symbols.

ghost use Rattle.std.specs.Prelude.{◌≡◌, ◌+◌, ◌^◌, ◌<◌};
ghost use Rattle.names.specs.Places.{is_among};
ghost use Rattle.ruby_tokens.specs.Literals.{is_mark, is_ending, operators};
ghost use Rattle.ruby_tokens.specs.Machine as machine;
ghost use Rattle.ruby_tokens.specs.Does.{Does};

use crate::appended::{letter, with_character};
use crate::begin::behind;
use crate::listed::is_listed;
use crate::mode::{Lexer, Mode};
use crate::refused::Refused;
use crate::token::{Kind, Token};
use plain_data::{Many, Word};
use source_text::{is_name_character, starts_word};
use std::alloc::Global;

/// A character of operators or of the marks behind a name.
fn is_mark(c: char) -> bool
    ensures { result ≡ is_mark c }
{
    c == '+'
        || c == '-'
        || c == '*'
        || c == '/'
        || c == '%'
        || c == '='
        || c == '<'
        || c == '>'
        || c == '['
        || c == ']'
        || c == '@'
        || c == '!'
        || c == '?'
        || c == '~'
}

/// A mark that a name of a method may end with.
fn is_ending(c: char) -> bool
    ensures { result ≡ is_ending c }
{
    c == '?' || c == '!' || c == '='
}

/// Whether the text is an operator that may be defined.
pub fn is_operator(text: &Word) -> bool
    ensures { result ≡ is_among text.now operators }
{
    is_listed(
        text.as_str(),
        &[
            "+", "-", "*", "/", "%", "==", "<", "<=", ">", ">=", "<=>", "<<", "[]", "[]=", "-@",
        ],
    )
}

/// Behind a colon.
pub fn in_colon(alloc: Global, tokens: Many<Token>, start: u32, c: char) -> Result<Lexer, Refused>
    ensures { Does (machine.in_colon tokens start c) result }
{
    if c == '_' {
        return Ok(Lexer {
            tokens,
            mode: Mode::Under { start },
        });
    }
    if starts_word(c) {
        let text = letter(alloc, c)?;
        return Ok(Lexer {
            tokens,
            mode: Mode::SymbolWord { start, text },
        });
    }
    if is_mark(c) {
        let text = letter(alloc, c)?;
        return Ok(Lexer {
            tokens,
            mode: Mode::SymbolOperator { start, text },
        });
    }
    Err(Refused::NoToken)
}

/// Behind the underscore that a symbol begins with: a capital would make it the name of an interface.
pub fn in_under(
    alloc: Global,
    tokens: Many<Token>,
    start: u32,
    at: u32,
    c: char,
) -> Result<Lexer, Refused>
    requires { at + 1 < 2 ^ 32 }
    ensures { Does (machine.in_under tokens start at c) result }
{
    if c.is_ascii_uppercase() {
        return Err(Refused::NoToken);
    }
    in_symbol_word(alloc, tokens, start, letter(alloc, '_')?, at, c)
}

/// In a symbol that is a name.
pub fn in_symbol_word(
    alloc: Global,
    tokens: Many<Token>,
    start: u32,
    text: Word,
    at: u32,
    c: char,
) -> Result<Lexer, Refused>
    requires { at + 1 < 2 ^ 32 }
    ensures { Does (machine.in_symbol_word tokens start text at c) result }
{
    if is_name_character(c) {
        let text = with_character(text, c)?;
        return Ok(Lexer {
            tokens,
            mode: Mode::SymbolWord { start, text },
        });
    }
    if is_ending(c) {
        let text = with_character(text, c)?;
        return Ok(Lexer {
            tokens,
            mode: Mode::SymbolEnding { start, text },
        });
    }
    in_symbol_ending(alloc, tokens, start, text, at, c)
}

/// Behind the mark that ends a symbol's name.
pub fn in_symbol_ending(
    alloc: Global,
    tokens: Many<Token>,
    start: u32,
    text: Word,
    at: u32,
    c: char,
) -> Result<Lexer, Refused>
    requires { at + 1 < 2 ^ 32 }
    ensures { Does (machine.in_symbol_ending tokens start text at c) result }
{
    if is_mark(c) {
        return Err(Refused::NoToken);
    }
    behind(alloc, tokens, Kind::Symbol(text), start, at, c)
}

/// In a symbol that is an operator.
pub fn in_symbol_operator(
    alloc: Global,
    tokens: Many<Token>,
    start: u32,
    text: Word,
    at: u32,
    c: char,
) -> Result<Lexer, Refused>
    requires { at + 1 < 2 ^ 32 }
    ensures { Does (machine.in_symbol_operator tokens start text at c) result }
{
    if is_mark(c) {
        let text = with_character(text, c)?;
        return Ok(Lexer {
            tokens,
            mode: Mode::SymbolOperator { start, text },
        });
    }
    if !is_operator(&text) {
        return Err(Refused::NoToken);
    }
    behind(alloc, tokens, Kind::Symbol(text), start, at, c)
}
