//! What the lexer knows between two characters.

use crate::before::Before;
use crate::token::Token;
use plain_data::{Many, Word};

/// What was read of a token or a comment. `start` is where it begins, in bytes.
#[derive(Debug, Drop)]
pub enum Mode {
    /// Between tokens.
    Between(Before),
    /// In a comment that gives no type; `joined` is as before it.
    Comment {
        joined: bool,
    },
    /// In a comment on a line of its own; `joined` is as before it, and `text` what stands behind its `#`.
    Note {
        start: u32,
        joined: bool,
        text: Many<char>,
    },
    Word {
        start: u32,
        text: Word,
    },
    /// Behind a minus sign.
    Minus {
        start: u32,
    },
    /// Behind a number's leading zero.
    Zero {
        start: u32,
    },
    Digits {
        start: u32,
        negative: bool,
        magnitude: u64,
    },
    /// Behind an underscore in a number.
    Underscore {
        start: u32,
        negative: bool,
        magnitude: u64,
    },
    /// Between single quotes.
    Single {
        start: u32,
        text: Word,
    },
    /// Between single quotes, behind a backslash.
    SingleEscape {
        start: u32,
        text: Word,
    },
    /// Between double quotes.
    Double {
        start: u32,
        text: Word,
    },
    /// Between double quotes, behind a backslash.
    DoubleEscape {
        start: u32,
        text: Word,
    },
    /// Between double quotes, behind a `#`.
    DoubleHash {
        start: u32,
        text: Word,
    },
    /// Behind the colon of a symbol.
    Colon {
        start: u32,
    },
    /// Behind the underscore that a symbol begins with.
    Under {
        start: u32,
    },
    /// In a symbol that is a name.
    SymbolWord {
        start: u32,
        text: Word,
    },
    /// Behind the mark that ends a symbol's name.
    SymbolEnding {
        start: u32,
        text: Word,
    },
    /// In a symbol that is an operator.
    SymbolOperator {
        start: u32,
        text: Word,
    },
}

/// The tokens before the place, and what was read since.
#[derive(Debug, Drop)]
pub struct Lexer {
    pub tokens: Many<Token>,
    pub mode: Mode,
}
