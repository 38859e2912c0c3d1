//! The tokens of signature text.

use sig_model::place::Place;

/// What a token is. Its text is the slice of its place.
#[derive(Clone, Copy, Debug, PartialEq, Eq)]
pub enum TokenKind {
    /// A word that begins with an ASCII lower-case letter or `_`, keywords among them.
    Ident,
    /// A word that begins with an ASCII capital.
    Upper,
    /// `_`, and then what begins with a capital.
    IfaceName,
    /// `@`, and then an `Ident`.
    Ivar,
    /// Decimal digits, with a `-` directly before them or without; from -2^63 to 2^63-1.
    Int,
    /// A text between double quotes. Its escapes are `\"`, `\\`, `\n` and `\t`.
    Str,
    /// `:`, and then the name of a method.
    Sym,
    /// `::`, `->`, `**`, or one of `< : , . @ [ ] ( ) { } | & ^ ? ! = * - > + / %`.
    Mark,
    /// `%a{`, a text without braces and newlines, and `}`.
    Annotation,
    /// `#` and what follows it on its line.
    Comment,
}

/// A token, and where it stands.
#[derive(Clone, Copy, Debug, PartialEq, Eq)]
pub struct SigToken {
    pub place: Place,
    pub kind: TokenKind,
}
