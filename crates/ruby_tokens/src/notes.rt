//! Comments, and those that give a local its type.

ghost use Rattle.std.specs.Prelude.{◌≡◌, ◌+◌, ◌^◌, ◌<◌, codes, IfOk};
ghost use Rattle.ruby_tokens.specs.Machine as machine;
ghost use Rattle.ruby_tokens.specs.Does.{Does};
ghost use Rattle.std.specs.Option.{option_copied};
ghost use Rattle.source_text.specs.Characters.{is_blank, is_name_character};
ghost use Rattle.ruby_tokens.specs.Notes.{skip, after_letters, after_blanks, begins_typed_name, begins_colon, after_mark, is_type_note};

use crate::appended::with_token;
use crate::before::behind_comment;
use crate::begin::begin;
use crate::mode::{Lexer, Mode};
use crate::refused::Refused;
use crate::token::{Kind, Token};
use plain_data::{Many, NoMemory};
use source_text::{is_blank, is_name_character};
use std::alloc::Global;

/// The characters from the first on that is no blank.
fn skip_blanks(text: &[char]) -> &[char]
    ensures { result.now ≡ skip is_blank text.now }
{
    for (place, c) in text.iter().enumerate() {
        if !is_blank(*c) {
            return &text[place..];
        }
    }
    &[]
}

/// The characters from the first on that no name goes on with.
fn skip_name(text: &[char]) -> &[char]
    ensures { result.now ≡ skip is_name_character text.now }
{
    for (place, c) in text.iter().enumerate() {
        if !is_name_character(*c) {
            return &text[place..];
        }
    }
    &[]
}

/// What follows the blanks that stand first, one or more.
fn after_blanks(text: &[char]) -> Option<&[char]>
    ensures { option_copied result ≡ after_blanks text.now }
{
    match text {
        [first, rest @ ..] if is_blank(*first) => Some(skip_blanks(rest)),
        _ => None,
    }
}

fn after_type(text: &[char]) -> Option<&[char]>
    ensures { option_copied result ≡ after_letters (codes "@type") text.now }
{
    text.strip_prefix(&['@', 't', 'y', 'p', 'e'])
}

fn after_var(text: &[char]) -> Option<&[char]>
    ensures { option_copied result ≡ after_letters (codes "var") text.now }
{
    text.strip_prefix(&['v', 'a', 'r'])
}

/// What follows `@type var` and its blanks.
fn after_mark(text: &[char]) -> Option<&[char]>
    ensures { option_copied result ≡ after_mark text.now }
{
    let text = after_blanks(text)?;
    let text = after_type(text)?;
    let text = after_blanks(text)?;
    let text = after_var(text)?;
    after_blanks(text)
}

fn begins_colon(text: &[char]) -> bool
    ensures { result ≡ begins_colon text.now }
{
    match text {
        [first, ..] => *first == ':',
        [] => false,
    }
}

/// Whether a local's name stands first, and a colon directly behind it.
fn begins_typed_name(text: &[char]) -> bool
    ensures { result ≡ begins_typed_name text.now }
{
    match text {
        [first, rest @ ..] => {
            (first.is_ascii_lowercase() || *first == '_') && begins_colon(skip_name(rest))
        }
        [] => false,
    }
}

/// Whether the comment with this text behind its `#` gives a local its type.
pub fn is_type_note(text: &[char]) -> bool
    ensures { result ≡ is_type_note text.now }
{
    match after_mark(text) {
        Some(rest) => begins_typed_name(rest),
        None => false,
    }
}

/// The tokens where a comment on a line of its own ends.
pub fn noted(
    tokens: Many<Token>,
    start: u32,
    text: &Many<char>,
    at: u32,
) -> Result<Many<Token>, NoMemory>
    ensures { IfOk result (λ more. more ≡ machine.noted tokens start text.now at) }
{
    if is_type_note(text.as_slice()) {
        with_token(tokens, Kind::TypeNote, start, at)
    } else {
        Ok(tokens)
    }
}

/// In a comment that gives no type.
pub fn in_comment(
    alloc: Global,
    tokens: Many<Token>,
    joined: bool,
    at: u32,
    c: char,
) -> Result<Lexer, Refused>
    requires { at + 1 < 2 ^ 32 }
    ensures { Does (machine.in_comment tokens joined at c) result }
{
    if c == '\n' {
        return begin(alloc, tokens, behind_comment(joined), at, c);
    }
    Ok(Lexer {
        tokens,
        mode: Mode::Comment { joined },
    })
}

/// In a comment on a line of its own.
pub fn in_note(
    alloc: Global,
    tokens: Many<Token>,
    start: u32,
    joined: bool,
    text: Many<char>,
    at: u32,
    c: char,
) -> Result<Lexer, Refused>
    requires { at + 1 < 2 ^ 32 }
    ensures { Does (machine.in_note tokens start joined text at c) result }
{
    if c == '\n' {
        let tokens = noted(tokens, start, &text, at)?;
        return begin(alloc, tokens, behind_comment(joined), at, c);
    }
    let mut text = text;
    text.push(c)?;
    Ok(Lexer {
        tokens,
        mode: Mode::Note {
            start,
            joined,
            text,
        },
    })
}
