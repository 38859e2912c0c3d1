//! Runs of characters, and of the pieces of a string's text.

ghost use Rattle.std.specs.Prelude.{◌≡◌};
ghost use Rattle.rbs_lexer.specs.Pieces.{IsCharacter, IsStringPiece, is_note_character, is_plain, is_escaped};
ghost use Rattle.rbs_lexer.specs.Scanned.{belongs, begins_escape, IsPiece, First, IsRun};

use bstr::decode_utf8;
use source_text::is_name_character;

/// What a run is made of.
#[derive(Clone, Copy, Debug, PartialEq, Eq)]
pub enum Run {
    /// Characters that go on with a name.
    Name,
    /// Decimal digits.
    Digit,
    /// What may stand between double quotes: characters and escapes.
    Text,
    /// Characters of an annotation.
    Note,
    /// Any characters but newlines.
    Line,
}

fn is_plain(c: char) -> bool
    ensures { result ≡ is_plain c }
{
    c != '"' && c != '\\'
}

fn is_note_character(c: char) -> bool
    ensures { result ≡ is_note_character c }
{
    c != '\n' && c != '{' && c != '}'
}

/// Whether a run goes on with this character as it stands.
fn belongs(run: Run, c: char) -> bool
    ensures { result ≡ belongs run c }
{
    match run {
        Run::Name => is_name_character(c),
        Run::Digit => c.is_ascii_digit(),
        Run::Text => is_plain(c),
        Run::Note => is_note_character(c),
        Run::Line => c != '\n',
    }
}

fn is_escaped(byte: u8) -> bool
    ensures { result ≡ is_escaped byte }
{
    byte == b'"' || byte == b'\\' || byte == b'n' || byte == b't'
}

/// Whether an escape stands first.
fn begins_escape(text: &[u8]) -> bool
    ensures { result ≡ begins_escape text.now }
{
    match text {
        [first, second, ..] => *first == b'\\' && is_escaped(*second),
        _ => false,
    }
}

/// The bytes of the first character, if it belongs to the run.
fn character_length(run: Run, text: &[u8]) -> Option<usize>
    ensures { First (IsCharacter (belongs run)) text.now result }
{
    let (first, length) = decode_utf8(text);
    match first {
        None => None,
        Some(c) => { if belongs(run, c) { Some(length) } else { None } }
    }
}

/// The bytes of the first piece of a string's text.
fn string_piece_length(text: &[u8]) -> Option<usize>
    ensures { First IsStringPiece text.now result }
{
    if begins_escape(text) {
        Some(2)
    } else {
        character_length(Run::Text, text)
    }
}

/// The bytes of the first piece, if it belongs to the run.
fn piece_length(run: Run, text: &[u8]) -> Option<usize>
    ensures { First (IsPiece run) text.now result }
{
    match run {
        Run::Text => string_piece_length(text),
        _ => character_length(run, text),
    }
}

/// How many bytes the pieces of this run take that stand first.
pub fn run_length(run: Run, text: &[u8]) -> usize
    ensures { IsRun (IsPiece run) text.now result }
{
    let mut at = 0;
    while let Some(length) = piece_length(run, &text[at..]) {
        at += length;
    }
    at
}
