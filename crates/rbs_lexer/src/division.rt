//! How a text divides into tokens, up to where it stops.

ghost use Rattle.std.specs.Prelude.{◌≡◌, ◌↔◌, ◌<◌, ◌^◌, length, take, IsTrue, IsUtf8, IfOk};
ghost use Rattle.rbs_lexer.specs.Division.{is_gap, span, IsFit, IsDivided, end_of};
ghost use Rattle.rbs_lexer.specs.Standing.{stop_of, StandUpTo, StopsAt};

use crate::found::first_token;
use crate::integers::fits;
use crate::token::{SigToken, TokenKind};
use plain_data::{Many, NoMemory};
use sig_model::place::Place;
use std::alloc::Global;

/// Why a division stops. The number is the offset of the byte at which it does.
#[derive(Clone, Copy, Debug, PartialEq, Eq)]
pub enum Ending {
    /// The text ends.
    Whole,
    /// No token begins: at a byte of no token, at bytes that aren't UTF-8, at a string that isn't closed.
    Stray(u32),
    /// The integer that begins is below -2^63 or above 2^63-1.
    PastInteger(u32),
}

/// The tokens of a text up to where its division stops.
#[derive(Debug, Drop)]
pub struct Divided {
    pub tokens: Many<SigToken>,
    pub ending: Ending,
}

/// A space, a tab, a carriage return or a newline.
fn is_gap(byte: u8) -> bool
    ensures { result ≡ is_gap byte }
{
    byte == b' ' || byte == b'\t' || byte == b'\r' || byte == b'\n'
}

fn span(file: u32, start: usize, end: usize) -> Place
    requires start { start < 2 ^ 32 }
    requires end { end < 2 ^ 32 }
    ensures { result ≡ span file start end }
{
    Place {
        file,
        start: start as u32,
        end: end as u32,
    }
}

/// Whether a token is no integer past 64 bits.
fn is_fit(kind: TokenKind, text: &[u8]) -> bool
    ensures { IsTrue result ↔ IsFit kind text.now }
{
    match kind {
        TokenKind::Int => fits(text),
        _ => true,
    }
}

/// The tokens of a signature file up to the first place where no token begins or an integer past 64 bits does, in
/// order, comments among them, each the longest that begins where it does. Between them, and before that place, stand
/// only blanks and newlines.
///
/// The text needs no valid UTF-8: a byte that belongs to no character begins no token.
pub fn divide(alloc: Global, file: u32, bytes: &[u8]) -> Result<Divided, NoMemory>
    requires { length bytes.now < 2 ^ 32 }
    ensures answer { IfOk result (λ found. IsDivided file found.tokens (end_of found.ending) bytes.now) }

    // What follows of a division, said plainly.
    ensures stand { IfOk result (λ found. StandUpTo file bytes.now (stop_of bytes.now (end_of found.ending)) 0 found.tokens) }
    ensures stops { IfOk result (λ found. StopsAt bytes.now (end_of found.ending)) }
    ensures utf8 { IfOk result (λ found. IsUtf8 (take (stop_of bytes.now (end_of found.ending)) bytes.now)) }
{
    let mut tokens = Many::new(alloc);
    let mut at = 0;
    while at < bytes.len() {
        if is_gap(bytes[at]) {
            at += 1;
        } else {
            let Some(found) = first_token(&bytes[at..]) else {
                let ending = Ending::Stray(at as u32);
                return Ok(Divided { tokens, ending });
            };
            let end = at + found.size;
            if !is_fit(found.kind, &bytes[at..end]) {
                let ending = Ending::PastInteger(at as u32);
                return Ok(Divided { tokens, ending });
            }
            tokens.push(SigToken {
                place: span(file, at, end),
                kind: found.kind,
            })?;
            at = end;
        }
    }
    let ending = Ending::Whole;
    Ok(Divided { tokens, ending })
}
