//! Strings.

ghost use Rattle.std.specs.Prelude.{◌≡◌, ◌+◌, ◌^◌, ◌<◌};
ghost use Rattle.ruby_tokens.specs.Machine as machine;
ghost use Rattle.ruby_tokens.specs.Machine.{escaped};
ghost use Rattle.ruby_tokens.specs.Does.{Does};

use crate::appended::{with_character, with_token};
use crate::before::in_line;
use crate::mode::{Lexer, Mode};
use crate::refused::Refused;
use crate::token::{Kind, Token};
use plain_data::{Many, Word};

/// Between single quotes.
pub fn in_single(
    tokens: Many<Token>,
    start: u32,
    text: Word,
    at: u32,
    c: char,
) -> Result<Lexer, Refused>
    requires { at + 1 < 2 ^ 32 }
    ensures { Does (machine.in_single tokens start text at c) result }
{
    if c == '\'' {
        let tokens = with_token(tokens, Kind::Text(text), start, at + 1)?;
        return Ok(Lexer {
            tokens,
            mode: Mode::Between(in_line()),
        });
    }
    if c == '\\' {
        return Ok(Lexer {
            tokens,
            mode: Mode::SingleEscape { start, text },
        });
    }
    let text = with_character(text, c)?;
    Ok(Lexer {
        tokens,
        mode: Mode::Single { start, text },
    })
}

/// Between single quotes, behind a backslash: only a quote and a backslash are escapes there.
pub fn in_single_escape(
    tokens: Many<Token>,
    start: u32,
    text: Word,
    c: char,
) -> Result<Lexer, Refused>
    ensures { Does (machine.in_single_escape tokens start text c) result }
{
    if c == '\'' || c == '\\' {
        let text = with_character(text, c)?;
        return Ok(Lexer {
            tokens,
            mode: Mode::Single { start, text },
        });
    }
    let text = with_character(with_character(text, '\\')?, c)?;
    Ok(Lexer {
        tokens,
        mode: Mode::Single { start, text },
    })
}

/// Between double quotes.
pub fn in_double(
    tokens: Many<Token>,
    start: u32,
    text: Word,
    at: u32,
    c: char,
) -> Result<Lexer, Refused>
    requires { at + 1 < 2 ^ 32 }
    ensures { Does (machine.in_double tokens start text at c) result }
{
    if c == '"' {
        let tokens = with_token(tokens, Kind::Text(text), start, at + 1)?;
        return Ok(Lexer {
            tokens,
            mode: Mode::Between(in_line()),
        });
    }
    if c == '\\' {
        return Ok(Lexer {
            tokens,
            mode: Mode::DoubleEscape { start, text },
        });
    }
    if c == '#' {
        let text = with_character(text, '#')?;
        return Ok(Lexer {
            tokens,
            mode: Mode::DoubleHash { start, text },
        });
    }
    let text = with_character(text, c)?;
    Ok(Lexer {
        tokens,
        mode: Mode::Double { start, text },
    })
}

/// What stands for a character behind a backslash between double quotes.
fn escaped(c: char) -> Option<char>
    ensures { result ≡ escaped c }
{
    match c {
        'n' => Some('\n'),
        't' => Some('\t'),
        '"' => Some('"'),
        '\\' => Some('\\'),
        '#' => Some('#'),
        _ => None,
    }
}

/// Between double quotes, behind a backslash.
pub fn in_double_escape(
    tokens: Many<Token>,
    start: u32,
    text: Word,
    c: char,
) -> Result<Lexer, Refused>
    ensures { Does (machine.in_double_escape tokens start text c) result }
{
    match escaped(c) {
        None => Err(Refused::NoToken),
        Some(meant) => {
            let text = with_character(text, meant)?;
            Ok(Lexer {
                tokens,
                mode: Mode::Double { start, text },
            })
        }
    }
}

/// Between double quotes, behind a `#`: a brace would begin an interpolation.
pub fn in_double_hash(
    tokens: Many<Token>,
    start: u32,
    text: Word,
    at: u32,
    c: char,
) -> Result<Lexer, Refused>
    requires { at + 1 < 2 ^ 32 }
    ensures { Does (machine.in_double_hash tokens start text at c) result }
{
    if c == '{' {
        return Err(Refused::NoToken);
    }
    in_double(tokens, start, text, at, c)
}
