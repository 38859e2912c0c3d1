//! The terminal symbols of the grammar of signatures, as the reader takes them.

use plain_data::{Many, Word};

/// A mark of the language.
#[derive(Clone, Copy, Debug, PartialEq, Eq)]
pub enum Mark {
    Less,
    Colon,
    /// `::`
    Scope,
    Comma,
    Dot,
    At,
    OpenSquare,
    CloseSquare,
    Open,
    Close,
    OpenBrace,
    CloseBrace,
    Bar,
    Amp,
    Caret,
    Question,
    Bang,
    Equals,
    Star,
    DoubleStar,
    Minus,
    /// `->`
    Arrow,
    Greater,
    Plus,
    Slash,
    Percent,
}

/// A word that the grammar keeps for itself.
#[derive(Clone, Copy, Debug, PartialEq, Eq)]
pub enum Keyword {
    Class,
    Module,
    Interface,
    Type,
    Def,
    End,
    Include,
    Extend,
    Prepend,
    Alias,
    AttrReader,
    AttrWriter,
    AttrAccessor,
    Private,
    Public,
    Singleton,
    Unchecked,
    Out,
    In,
    SelfWord,
    Instance,
    True,
    False,
    Nil,
    Bool,
    Void,
    Top,
    Bot,
    Untyped,
}

/// What a token is.
#[derive(Debug, Drop)]
pub enum Kind {
    Mark(Mark),
    Keyword(Keyword),
    /// A word that begins with an ASCII lower-case letter or `_`, and is no keyword.
    Lower(Word),
    /// A word that begins with an ASCII capital.
    Upper(Word),
    /// `_`, and then what begins with a capital.
    Interface(Word),
    /// The name behind the `@` of an instance variable.
    Variable(Word),
    Integer(i64),
    /// The value of a string.
    Text(Word),
    /// The name behind the `:` of a symbol.
    Symbol(Word),
    /// The text between the braces of an annotation.
    Annotation(Word),
    /// An integer past 64 bits: where an integer may stand, a limit is passed.
    PastInteger,
    /// Bytes that begin no token.
    Stray,
}

/// What stands between a token and the one before it, comments aside.
#[derive(Clone, Copy, Debug, PartialEq, Eq)]
pub enum Gap {
    /// Nothing: the two stand side by side.
    Joined,
    /// Blanks on one line.
    Blank,
    /// A newline at least. The first token of a text has this gap too.
    Line,
}

/// Where a token stands: its first byte and one past its last, the gap before it, and the comment lines that
/// are carried by it: those that stand directly before it, each on a line of its own, with no empty line between
/// them or behind them. A comment's text is what follows its `#` on its line.
#[derive(Debug, Drop)]
pub struct Spot {
    /// Where the token before this one ends, 0 where there is none.
    pub before: u32,
    pub gap: Gap,
    pub start: u32,
    pub end: u32,
    pub comments: Many<Word>,
}

/// A token.
#[derive(Debug, Drop)]
pub struct Token {
    pub kind: Kind,
    pub spot: Spot,
}
