//! The lexer, which takes one character at a time.

ghost use Rattle.std.specs.Prelude.{◌≡◌, ◌+◌, ◌^◌, ◌<◌};
ghost use Rattle.ruby_tokens.specs.Machine as machine;
ghost use Rattle.ruby_tokens.specs.Does.{Does, Ends, IsFit};

use crate::appended::{letter, with_token};
use crate::begin::begin;
use crate::mode::{Lexer, Mode};
use crate::notes::{in_comment, in_note, noted};
use crate::numbers::{in_digits, in_minus, in_underscore, in_zero, integer};
use crate::refused::Refused;
use crate::strings::{in_double, in_double_escape, in_double_hash, in_single, in_single_escape};
use crate::symbols::{
    in_colon, in_symbol_ending, in_symbol_operator, in_symbol_word, in_under, is_operator,
};
use crate::token::{Kind, Token};
use crate::words::{in_word, word_kind};
use plain_data::Many;
use std::alloc::Global;

/// The lexer behind the character `c`, which stands at `at`.
pub fn step(alloc: Global, lexer: Lexer, at: u32, c: char) -> Result<Lexer, Refused>
    requires fits { at + 1 < 2 ^ 32 }
    requires fit { IsFit lexer.mode }
    ensures { Does (machine.step lexer.tokens lexer.mode at c) result }
{
    let Lexer { tokens, mode } = lexer;
    match mode {
        Mode::Between(before) => begin(alloc, tokens, before, at, c),
        Mode::Comment { joined } => in_comment(alloc, tokens, joined, at, c),
        Mode::Note {
            start,
            joined,
            text,
        } => in_note(alloc, tokens, start, joined, text, at, c),
        Mode::Word { start, text } => in_word(alloc, tokens, start, text, at, c),
        Mode::Minus { start } => in_minus(tokens, start, c),
        Mode::Zero { start } => in_zero(alloc, tokens, start, at, c),
        Mode::Digits {
            start,
            negative,
            magnitude,
        } => in_digits(alloc, tokens, start, negative, magnitude, at, c),
        Mode::Underscore {
            start,
            negative,
            magnitude,
        } => in_underscore(tokens, start, negative, magnitude, c),
        Mode::Single { start, text } => in_single(tokens, start, text, at, c),
        Mode::SingleEscape { start, text } => in_single_escape(tokens, start, text, c),
        Mode::Double { start, text } => in_double(tokens, start, text, at, c),
        Mode::DoubleEscape { start, text } => in_double_escape(tokens, start, text, c),
        Mode::DoubleHash { start, text } => in_double_hash(tokens, start, text, at, c),
        Mode::Colon { start } => in_colon(alloc, tokens, start, c),
        Mode::Under { start } => in_under(alloc, tokens, start, at, c),
        Mode::SymbolWord { start, text } => in_symbol_word(alloc, tokens, start, text, at, c),
        Mode::SymbolEnding { start, text } => in_symbol_ending(alloc, tokens, start, text, at, c),
        Mode::SymbolOperator { start, text } => {
            in_symbol_operator(alloc, tokens, start, text, at, c)
        }
    }
}

/// The tokens where the text ends at `at`.
pub fn ends(alloc: Global, lexer: Lexer, at: u32) -> Result<Many<Token>, Refused>
    requires { IsFit lexer.mode }
    ensures { Ends (machine.ends lexer.tokens lexer.mode at) result }
{
    let Lexer { tokens, mode } = lexer;
    match mode {
        Mode::Between(_) | Mode::Comment { .. } => Ok(tokens),
        Mode::Note { start, text, .. } => Ok(noted(tokens, start, &text, at)?),
        Mode::Word { start, text } => Ok(with_token(tokens, word_kind(text), start, at)?),
        Mode::Zero { start } => Ok(with_token(tokens, Kind::Integer(0), start, at)?),
        Mode::Digits {
            start,
            negative,
            magnitude,
        } => Ok(with_token(tokens, integer(negative, magnitude), start, at)?),
        Mode::Under { start } => {
            let name = letter(alloc, '_')?;
            Ok(with_token(tokens, Kind::Symbol(name), start, at)?)
        }
        Mode::SymbolWord { start, text } | Mode::SymbolEnding { start, text } => {
            Ok(with_token(tokens, Kind::Symbol(text), start, at)?)
        }
        Mode::SymbolOperator { start, text } => {
            if !is_operator(&text) {
                return Err(Refused::NoToken);
            }
            Ok(with_token(tokens, Kind::Symbol(text), start, at)?)
        }
        Mode::Minus { .. }
        | Mode::Underscore { .. }
        | Mode::Single { .. }
        | Mode::SingleEscape { .. }
        | Mode::Double { .. }
        | Mode::DoubleEscape { .. }
        | Mode::DoubleHash { .. }
        | Mode::Colon { .. } => Err(Refused::NoToken),
    }
}
