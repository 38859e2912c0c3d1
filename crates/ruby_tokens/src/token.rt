//! The tokens of Ruby text, as far as the profile of `docs/rules/ruby.md` has them.

use plain_data::Word;

/// What a token is. A word of Ruby that begins no construct of the profile is `Other`: it continues no text.
#[derive(Debug, Drop)]
pub enum Kind {
    Class,
    Def,
    End,
    Nil,
    /// A word that begins with an ASCII capital.
    Upper(Word),
    /// A word that begins with an ASCII lower-case letter or `_`, and is no keyword.
    Name(Word),
    Other,
    Integer(i64),
    /// A string, by its value.
    Text(Word),
    /// A symbol, by its name.
    Symbol(Word),
    Open,
    Close,
    Comma,
    Dot,
    /// A dot that begins a line and goes on with the statement of an earlier one: nothing but blanks
    /// stands before it on its line, and each line between its own and that of the token before it
    /// holds a comment. Newlines and the comments that give a type don't count as that token.
    LeadingDot,
    Equals,
    Semicolon,
    Newline,
    /// A comment on a line of its own that gives a local its type: `# @type var x: T`.
    TypeNote,
}

/// A token, and where it stands in its file, in bytes: its first one, and one past its last.
#[derive(Debug, Drop)]
pub struct Token {
    pub kind: Kind,
    pub start: u32,
    pub end: u32,
}
