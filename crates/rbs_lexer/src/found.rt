//! The longest token that begins a text.

ghost use Rattle.std.specs.Prelude.{◌≡◌, ℕ, ◌∷◌, Some, true, false};
ghost use Rattle.std.specs.Char.{is_ascii_digit};
ghost use Rattle.source_text.specs.Characters.{starts_word};
ghost use Rattle.rbs_lexer.specs.Scanned.{is_mark_byte, is_pair, begins_more, IsNoteRest, IsLongest, Finds};

use crate::pieces::{Run, run_length};
use crate::token::TokenKind;
use crate::words::{begins_interface, byte_at, lower_length, method_name_length};

/// A token by its kind, and how many bytes it takes.
#[derive(Clone, Copy, Debug, PartialEq, Eq)]
pub struct Found {
    pub kind: TokenKind,
    pub size: usize,
}

fn of_kind(kind: TokenKind, size: usize) -> Option<Found>
    ensures { result ≡ Some (record { kind = kind; size = size }) }
{
    Some(Found { kind, size })
}

/// Behind the first byte of a word.
fn word(first: u8, rest: &[u8]) -> Option<Found>
    requires { starts_word first ≡ true }
    ensures { Finds (first ∷ rest.now) result }
{
    let size = 1 + run_length(Run::Name, rest);
    if first.is_ascii_uppercase() {
        of_kind(TokenKind::Upper, size)
    } else if begins_interface(first, rest) {
        of_kind(TokenKind::IfaceName, size)
    } else {
        of_kind(TokenKind::Ident, size)
    }
}

/// Behind the first digit, whichever it is.
fn number(rest: &[u8]) -> Option<Found>
    ensures { (b : ℕ) → is_ascii_digit b ≡ true → Finds (b ∷ rest.now) result }
{
    of_kind(TokenKind::Int, 1 + run_length(Run::Digit, rest))
}

/// Behind a minus sign.
fn minus(rest: &[u8]) -> Option<Found>
    ensures { Finds (45 ∷ rest.now) result }
{
    match run_length(Run::Digit, rest) {
        0 if byte_at(rest, 0) == b'>' => of_kind(TokenKind::Mark, 2),
        0 => of_kind(TokenKind::Mark, 1),
        digits => of_kind(TokenKind::Int, 1 + digits),
    }
}

/// Behind an opening quote.
fn string(rest: &[u8]) -> Option<Found>
    ensures { Finds (34 ∷ rest.now) result }
{
    let text = run_length(Run::Text, rest);
    if byte_at(rest, text) == b'"' {
        of_kind(TokenKind::Str, text + 2)
    } else {
        None
    }
}

/// Behind a `#`.
fn comment(rest: &[u8]) -> Option<Found>
    ensures { Finds (35 ∷ rest.now) result }
{
    of_kind(TokenKind::Comment, 1 + run_length(Run::Line, rest))
}

/// Behind an `@`.
fn variable(rest: &[u8]) -> Option<Found>
    ensures { Finds (64 ∷ rest.now) result }
{
    match lower_length(rest) {
        0 => of_kind(TokenKind::Mark, 1),
        name => of_kind(TokenKind::Ivar, 1 + name),
    }
}

/// Behind a colon.
fn symbol(rest: &[u8]) -> Option<Found>
    ensures { Finds (58 ∷ rest.now) result }
{
    match method_name_length(rest) {
        0 if byte_at(rest, 0) == b':' => of_kind(TokenKind::Mark, 2),
        0 => of_kind(TokenKind::Mark, 1),
        name => of_kind(TokenKind::Sym, 1 + name),
    }
}

/// The bytes of an annotation that stands first, without its percent sign, or 0.
fn note_length(text: &[u8]) -> usize
    ensures { IsLongest IsNoteRest text.now result }
{
    let [b'a', b'{', note @ ..] = text else {
        return 0;
    };
    let length = run_length(Run::Note, note);
    if byte_at(note, length) == b'}' {
        length + 3
    } else {
        0
    }
}

/// Behind a percent sign.
fn annotation(rest: &[u8]) -> Option<Found>
    ensures { Finds (37 ∷ rest.now) result }
{
    match note_length(rest) {
        0 => of_kind(TokenKind::Mark, 1),
        note => of_kind(TokenKind::Annotation, 1 + note),
    }
}

/// A byte that is a mark.
fn is_mark_byte(byte: u8) -> bool
    ensures { result ≡ is_mark_byte byte }
{
    byte == b'<'
        || byte == b':'
        || byte == b','
        || byte == b'.'
        || byte == b'@'
        || byte == b'['
        || byte == b']'
        || byte == b'('
        || byte == b')'
        || byte == b'{'
        || byte == b'}'
        || byte == b'|'
        || byte == b'&'
        || byte == b'^'
        || byte == b'?'
        || byte == b'!'
        || byte == b'='
        || byte == b'*'
        || byte == b'-'
        || byte == b'>'
        || byte == b'+'
        || byte == b'/'
        || byte == b'%'
}

/// Two bytes that are a mark.
fn is_pair(first: u8, second: u8) -> bool
    ensures { result ≡ is_pair first second }
{
    (first == b':' && second == b':')
        || (first == b'-' && second == b'>')
        || (first == b'*' && second == b'*')
}

/// Behind the first byte, which begins nothing but marks.
fn mark(first: u8, rest: &[u8]) -> Option<Found>
    requires { begins_more first ≡ false }
    ensures { Finds (first ∷ rest.now) result }
{
    if is_pair(first, byte_at(rest, 0)) {
        of_kind(TokenKind::Mark, 2)
    } else if is_mark_byte(first) {
        of_kind(TokenKind::Mark, 1)
    } else {
        None
    }
}

/// Behind the first byte, which begins neither a word nor a number.
fn sign(first: u8, rest: &[u8]) -> Option<Found>
    requires word { starts_word first ≡ false }
    requires digit { is_ascii_digit first ≡ false }
    ensures { Finds (first ∷ rest.now) result }
{
    match first {
        b'-' => minus(rest),
        b'"' => string(rest),
        b'#' => comment(rest),
        b'@' => variable(rest),
        b':' => symbol(rest),
        b'%' => annotation(rest),
        _ => mark(first, rest),
    }
}

fn starts_word(byte: u8) -> bool
    ensures { result ≡ starts_word byte }
{
    byte.is_ascii_alphabetic() || byte == b'_'
}

/// The longest token that begins the text, or `None` where none does.
pub fn first_token(text: &[u8]) -> Option<Found>
    ensures { Finds text.now result }
{
    let [first, rest @ ..] = text else {
        return None;
    };
    if starts_word(*first) {
        word(*first, rest)
    } else if first.is_ascii_digit() {
        number(rest)
    } else {
        sign(*first, rest)
    }
}
