//! What is open in a text: parentheses, and words that an `end` closes.

ghost use Rattle.std.specs.Prelude.{◌≡◌, ◌≤◌, ◌↔◌, IsTrue};
ghost use Rattle.ruby_reader.specs.Open.{KeepsOpen};
ghost use Rattle.ruby_reader.specs.Open as spec;

use ruby_tokens::{Kind, Token};

/// The most that may be open.
const LIMIT: u32 = 400;

/// What is open behind a token.
fn behind(opened: u32, kind: &Kind) -> u32
    requires { opened ≤ 400 }
    ensures { result ≡ spec.behind opened kind.now }
{
    match kind {
        Kind::Open | Kind::Class | Kind::Def => opened + 1,
        Kind::Close | Kind::End => opened.saturating_sub(1),
        _ => opened,
    }
}

/// Whether no more is open behind any token than may be.
pub fn keeps_open(tokens: &[Token]) -> bool
    ensures { IsTrue result ↔ KeepsOpen tokens.now }
{
    let mut opened = 0u32;
    for token in tokens {
        opened = behind(opened, &token.kind);
        if opened > LIMIT {
            return false;
        }
    }
    true
}
