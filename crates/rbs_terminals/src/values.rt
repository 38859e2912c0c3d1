//! The values of integers and strings.

ghost use Rattle.std.specs.Prelude.{◌≡◌, ◌^◌, ◌<◌, ◌≤◌, pos, neg_ℤ, IfOk, IsUtf8};
ghost use Rattle.rbs_lexer.specs.Integers.{value_from, IsInteger, Fits64};
ghost use Rattle.rbs_lexer.specs.Pieces.{Repeated, IsStringPiece};
ghost use Rattle.rbs_terminals.specs.Values as values;

use plain_data::{Many, NoMemory, Word};
use std::alloc::Global;

/// The number that digits make.
fn magnitude(digits: &[u8]) -> u64
    requires { value_from 0 digits.now ≤ 2 ^ 63 }
    ensures { result ≡ value_from 0 digits.now }
{
    let mut value = 0;
    for digit in digits {
        value = value * 10 + u64::from(digit.saturating_sub(b'0'));
    }
    value
}

/// The number below zero by its magnitude.
fn negated(magnitude: u64) -> i64
    requires { magnitude ≤ 2 ^ 63 }
    ensures { result ≡ neg_ℤ (pos magnitude) }
{
    if magnitude == 0 {
        0
    } else {
        -((magnitude - 1) as i64) - 1
    }
}

/// The value of an integer, in digits with a minus sign or without.
pub fn integer_value(integer: &[u8]) -> i64
    requires { Fits64 integer.now }
    ensures { result ≡ values.integer_value integer.now }
{
    match integer {
        [b'-', digits @ ..] => negated(magnitude(digits)),
        _ => magnitude(integer) as i64,
    }
}

/// A copy of a text.
#[inline(always)]
pub fn word_of(alloc: Global, text: &[u8]) -> Result<Word, NoMemory>
    requires { IsUtf8 text.now }
    ensures { IfOk result (λ word. word ≡ text.now) }
{
    // SAFETY: the text is UTF-8, as is required.
    Word::of(alloc, unsafe { str::from_utf8_unchecked(text) })
}

/// What a byte behind a backslash stands for.
fn escaped(byte: u8) -> u8
    ensures { result ≡ values.escaped byte }
{
    match byte {
        b'n' => b'\n',
        b't' => b'\t',
        _ => byte,
    }
}

/// What stands between the quotes of a string, with its escapes undone.
fn unescaped(alloc: Global, text: &[u8]) -> Result<Many<u8>, NoMemory>
    ensures { IfOk result (λ value. value ≡ values.unescaped text.now) }
{
    let mut value = Many::with_room(alloc, text.len())?;
    let mut behind = false;
    for byte in text {
        if behind {
            value.push(escaped(*byte))?;
            behind = false;
        } else if *byte == b'\\' {
            behind = true;
        } else {
            value.push(*byte)?;
        }
    }
    Ok(value)
}

/// The value of a string, by what stands between its quotes.
pub fn string_value(alloc: Global, text: &[u8]) -> Result<Word, NoMemory>
    requires { Repeated IsStringPiece text.now }
    ensures { IfOk result (λ value. value ≡ values.unescaped text.now) }
{
    let value = unescaped(alloc, text)?;
    word_of(alloc, value.as_slice())
}
