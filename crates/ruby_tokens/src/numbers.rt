//! Integers.

ghost use Rattle.std.specs.Prelude.{◌≡◌, ◌+◌, ◌-◌, ◌^◌, ◌<◌, ◌≤◌, Some};
ghost use Rattle.ruby_tokens.specs.declared.token.Kind.TheVariants as kind;
ghost use Rattle.ruby_tokens.specs.Machine as machine;
ghost use Rattle.ruby_tokens.specs.Machine.{limit, signed, goes_on_from_zero};
ghost use Rattle.ruby_tokens.specs.declared.mode.Mode.TheVariants as mode;
ghost use Rattle.ruby_tokens.specs.Does.{Does};

use crate::begin::behind;
use crate::mode::{Lexer, Mode};
use crate::refused::Refused;
use crate::token::{Kind, Token};
use plain_data::Many;
use std::alloc::Global;

/// What a digit counts.
fn digit_value(c: char) -> u64
    ensures { result ≡ c - 48 }
{
    u64::from((c as u32).saturating_sub(48))
}

/// How large a number may be, by its sign.
fn limit(negative: bool) -> u64
    ensures { result ≡ limit negative }
{
    if negative {
        0x8000_0000_0000_0000
    } else {
        0x7fff_ffff_ffff_ffff
    }
}

/// The integer of this magnitude.
fn signed(negative: bool, magnitude: u64) -> i64
    requires { magnitude ≤ limit negative }
    ensures { result ≡ signed negative magnitude }
{
    if !negative {
        magnitude as i64
    } else if magnitude == 0 {
        0
    } else {
        -((magnitude - 1) as i64) - 1
    }
}

/// The first digit, which is no zero.
pub fn first_digit(
    tokens: Many<Token>,
    start: u32,
    negative: bool,
    c: char,
) -> Result<Lexer, Refused>
    ensures { Does (Some (machine.lexer tokens (mode.Digits start negative (c - 48)))) result }
{
    Ok(Lexer {
        tokens,
        mode: Mode::Digits {
            start,
            negative,
            magnitude: digit_value(c),
        },
    })
}

/// A further digit.
fn digit(
    tokens: Many<Token>,
    start: u32,
    negative: bool,
    magnitude: u64,
    c: char,
) -> Result<Lexer, Refused>
    ensures { Does (machine.digit tokens start negative magnitude c) result }
{
    let value = digit_value(c);
    if magnitude > (limit(negative) - value) / 10 {
        return Err(Refused::NoToken);
    }
    Ok(Lexer {
        tokens,
        mode: Mode::Digits {
            start,
            negative,
            magnitude: magnitude * 10 + value,
        },
    })
}

/// Behind a minus sign.
pub fn in_minus(tokens: Many<Token>, start: u32, c: char) -> Result<Lexer, Refused>
    ensures { Does (machine.in_minus tokens start c) result }
{
    if c == '0' {
        return Ok(Lexer {
            tokens,
            mode: Mode::Zero { start },
        });
    }
    if !c.is_ascii_digit() {
        return Err(Refused::NoToken);
    }
    first_digit(tokens, start, true, c)
}

/// Whether the character may not follow a leading zero.
fn goes_on_from_zero(c: char) -> bool
    ensures { result ≡ goes_on_from_zero c }
{
    c.is_ascii_digit()
        || c == '_'
        || c == 'x'
        || c == 'X'
        || c == 'b'
        || c == 'B'
        || c == 'o'
        || c == 'O'
        || c == 'd'
        || c == 'D'
}

/// Behind a leading zero.
pub fn in_zero(
    alloc: Global,
    tokens: Many<Token>,
    start: u32,
    at: u32,
    c: char,
) -> Result<Lexer, Refused>
    requires { at + 1 < 2 ^ 32 }
    ensures { Does (machine.in_zero tokens start at c) result }
{
    if goes_on_from_zero(c) {
        return Err(Refused::NoToken);
    }
    behind(alloc, tokens, Kind::Integer(0), start, at, c)
}

/// What an integer is.
pub fn integer(negative: bool, magnitude: u64) -> Kind
    requires { magnitude ≤ limit negative }
    ensures { result ≡ kind.Integer (signed negative magnitude) }
{
    Kind::Integer(signed(negative, magnitude))
}

/// Behind a digit.
pub fn in_digits(
    alloc: Global,
    tokens: Many<Token>,
    start: u32,
    negative: bool,
    magnitude: u64,
    at: u32,
    c: char,
) -> Result<Lexer, Refused>
    requires fits { at + 1 < 2 ^ 32 }
    requires within { magnitude ≤ limit negative }
    ensures { Does (machine.in_digits tokens start negative magnitude at c) result }
{
    if c.is_ascii_digit() {
        return digit(tokens, start, negative, magnitude, c);
    }
    if c == '_' {
        return Ok(Lexer {
            tokens,
            mode: Mode::Underscore {
                start,
                negative,
                magnitude,
            },
        });
    }
    behind(alloc, tokens, integer(negative, magnitude), start, at, c)
}

/// Behind an underscore in a number.
pub fn in_underscore(
    tokens: Many<Token>,
    start: u32,
    negative: bool,
    magnitude: u64,
    c: char,
) -> Result<Lexer, Refused>
    ensures { Does (machine.in_underscore tokens start negative magnitude c) result }
{
    if !c.is_ascii_digit() {
        return Err(Refused::NoToken);
    }
    digit(tokens, start, negative, magnitude, c)
}
