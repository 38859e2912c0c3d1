//! Where a token may begin.

ghost use Rattle.std.specs.Prelude.{◌≡◌, ◌+◌, ◌^◌, ◌<◌, Some, true};
ghost use Rattle.ruby_tokens.specs.Machine as machine;
ghost use Rattle.ruby_tokens.specs.Does.{Does, IsFit};

use crate::appended::{with_character, with_token};
use crate::before::{Before, dot_kind, in_line, next_line};
use crate::mode::{Lexer, Mode};
use crate::numbers::first_digit;
use crate::refused::Refused;
use crate::starts::{Sort, sort_of};
use crate::token::{Kind, Token};
use plain_data::{Many, Word};
use std::alloc::Global;

fn begin_comment(alloc: Global, before: Before, at: u32) -> Mode
    ensures value { result ≡ machine.begin_comment before.blank before.joined at }
    ensures fit { IsFit result }
{
    let Before { blank, joined } = before;
    if blank {
        Mode::Note {
            start: at,
            joined,
            text: Many::new(alloc),
        }
    } else {
        Mode::Comment { joined }
    }
}

/// Behind a token that is no newline.
fn between() -> Mode
    ensures value { result ≡ machine.between }
    ensures fit { IsFit result }
{
    Mode::Between(in_line())
}

/// The lexer in this mode.
fn stands(tokens: Many<Token>, mode: Mode) -> Result<Lexer, Refused>
    requires { IsFit mode }
    ensures { Does (Some (machine.lexer tokens mode)) result }
{
    Ok(Lexer { tokens, mode })
}

/// A token of one character.
fn one(tokens: Many<Token>, kind: Kind, at: u32, mode: Mode) -> Result<Lexer, Refused>
    requires fits { at + 1 < 2 ^ 32 }
    requires fit { IsFit mode }
    ensures { Does (Some (machine.lexer (machine.with_token tokens kind at (at + 1)) mode)) result }
{
    stands(with_token(tokens, kind, at, at + 1)?, mode)
}

/// The character `c` stands at `at`, where a token may begin, behind what `before` says.
pub fn begin(
    alloc: Global,
    tokens: Many<Token>,
    before: Before,
    at: u32,
    c: char,
) -> Result<Lexer, Refused>
    requires { at + 1 < 2 ^ 32 }
    ensures { Does (machine.begin tokens before at c) result }
{
    begin_by(alloc, sort_of(c), tokens, before, at, c)
}

fn begin_by(
    alloc: Global,
    sort: Sort,
    tokens: Many<Token>,
    before: Before,
    at: u32,
    c: char,
) -> Result<Lexer, Refused>
    requires { at + 1 < 2 ^ 32 }
    ensures { Does (machine.begin_by sort tokens before at c) result }
{
    let start = at;
    let text = Word::new(alloc);
    match sort {
        Sort::Blank => stands(tokens, Mode::Between(before)),
        Sort::Comment => stands(tokens, begin_comment(alloc, before, at)),
        Sort::Word => {
            let text = with_character(text, c)?;
            stands(tokens, Mode::Word { start, text })
        }
        Sort::Zero => stands(tokens, Mode::Zero { start }),
        Sort::Digit => first_digit(tokens, start, false, c),
        Sort::Minus => stands(tokens, Mode::Minus { start }),
        Sort::Single => stands(tokens, Mode::Single { start, text }),
        Sort::Double => stands(tokens, Mode::Double { start, text }),
        Sort::Symbol => stands(tokens, Mode::Colon { start }),
        Sort::Open => one(tokens, Kind::Open, at, between()),
        Sort::Close => one(tokens, Kind::Close, at, between()),
        Sort::Comma => one(tokens, Kind::Comma, at, between()),
        Sort::Equals => one(tokens, Kind::Equals, at, between()),
        Sort::Semicolon => one(tokens, Kind::Semicolon, at, between()),
        Sort::Dot => one(tokens, dot_kind(before), at, between()),
        Sort::Newline => one(tokens, Kind::Newline, at, Mode::Between(next_line(before))),
        Sort::Nothing => Err(Refused::NoToken),
    }
}

/// The character `c` stands at `at`, directly behind a token of the kind `kind` that begins at `start`.
pub fn behind(
    alloc: Global,
    tokens: Many<Token>,
    kind: Kind,
    start: u32,
    at: u32,
    c: char,
) -> Result<Lexer, Refused>
    requires { at + 1 < 2 ^ 32 }
    ensures { Does (machine.behind tokens kind start at c) result }
{
    let tokens = with_token(tokens, kind, start, at)?;
    begin(alloc, tokens, in_line(), at, c)
}
