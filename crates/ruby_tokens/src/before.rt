//! What stands before a place between tokens.

ghost use Rattle.std.specs.Prelude.{◌≡◌};
ghost use Rattle.ruby_tokens.specs.Lines as lines;

use crate::token::Kind;

/// What stands before a place between tokens.
#[derive(Clone, Copy, Debug, Drop)]
pub struct Before {
    /// Nothing but blanks stands before it on its line.
    pub blank: bool,
    /// A token other than a newline and a comment that gives a type stands before it, and each line
    /// between that token's line and its own holds a comment.
    pub joined: bool,
}

/// Before the first character.
pub fn at_start() -> Before
    ensures { result ≡ lines.at_start }
{
    Before {
        blank: true,
        joined: false,
    }
}

/// Behind a token that is no newline and no comment.
pub fn in_line() -> Before
    ensures { result ≡ lines.in_line }
{
    Before {
        blank: false,
        joined: true,
    }
}

/// Behind a comment.
pub fn behind_comment(joined: bool) -> Before
    ensures { result ≡ lines.behind_comment joined }
{
    Before {
        blank: false,
        joined,
    }
}

/// Behind a newline: a line with nothing but blanks joins nothing.
pub fn next_line(before: Before) -> Before
    ensures { result ≡ lines.next_line before }
{
    Before {
        blank: true,
        joined: before.joined && !before.blank,
    }
}

/// What a dot is.
pub fn dot_kind(before: Before) -> Kind
    ensures { result ≡ lines.dot_kind before }
{
    if before.blank && before.joined {
        Kind::LeadingDot
    } else {
        Kind::Dot
    }
}
