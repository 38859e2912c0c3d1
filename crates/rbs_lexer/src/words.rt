//! The longest names that stand first.

ghost use Rattle.std.specs.Prelude.{◌≡◌, ◌∷◌, slice_index};
ghost use Rattle.rbs_lexer.specs.Names.{starts_lower, is_ending, IsLower, IsWord, IsOperator, IsMethodName};
ghost use Rattle.rbs_lexer.specs.Scanned.{begins_upper, begins_interface, less_length, index_length, pair_length, is_single_operator, operator_length, IsLongest};

use crate::pieces::{Run, run_length};

/// Whether a capital stands first.
fn begins_upper(text: &[u8]) -> bool
    ensures { result ≡ begins_upper text.now }
{
    match text {
        [first, ..] => first.is_ascii_uppercase(),
        [] => false,
    }
}

/// Whether the byte and the text behind it begin the name of an interface.
pub fn begins_interface(first: u8, rest: &[u8]) -> bool
    ensures { result ≡ begins_interface first rest.now }
{
    first == b'_' && begins_upper(rest)
}

/// An ASCII lower-case letter or an underscore.
fn starts_lower(byte: u8) -> bool
    ensures { result ≡ starts_lower byte }
{
    byte.is_ascii_lowercase() || byte == b'_'
}

/// The bytes of the longest word with a small letter or an underscore that stands first, or 0.
pub fn lower_length(text: &[u8]) -> usize
    ensures { IsLongest IsLower text.now result }
{
    let [first, rest @ ..] = text else {
        return 0;
    };
    if !starts_lower(*first) {
        0
    } else if begins_interface(*first, rest) {
        1
    } else {
        1 + run_length(Run::Name, rest)
    }
}

/// The bytes of the longest word that stands first, or 0.
fn word_length(text: &[u8]) -> usize
    ensures { IsLongest IsWord text.now result }
{
    match text {
        [first, rest @ ..] if first.is_ascii_uppercase() => 1 + run_length(Run::Name, rest),
        _ => lower_length(text),
    }
}

/// A mark that the name of a method may end with.
fn is_ending(byte: u8) -> bool
    ensures { result ≡ is_ending byte }
{
    byte == b'?' || byte == b'!' || byte == b'='
}

/// The byte at a place, or 0 behind the last one.
pub fn byte_at(text: &[u8], at: usize) -> u8
    ensures { result ≡ slice_index text.now at }
{
    match text.get(at) {
        Some(byte) => *byte,
        None => 0,
    }
}

/// The bytes of the longest operator of these three bytes that begins with `<`.
fn less_length(second: u8, third: u8) -> usize
    ensures { result ≡ less_length second third }
{
    match second {
        b'=' if third == b'>' => 3,
        b'=' | b'<' => 2,
        _ => 1,
    }
}

/// The bytes of the longest operator of these three bytes that begins with `[`, or 0.
fn index_length(second: u8, third: u8) -> usize
    ensures { result ≡ index_length second third }
{
    match second {
        b']' if third == b'=' => 3,
        b']' => 2,
        _ => 0,
    }
}

/// The bytes of the longest other operator of these two bytes that may have two, or 0.
fn pair_length(first: u8, second: u8) -> usize
    ensures { result ≡ pair_length first second }
{
    if first == b'=' {
        if second == b'=' { 2 } else { 0 }
    } else if first == b'>' {
        if second == b'=' { 2 } else { 1 }
    } else if first == b'-' {
        if second == b'@' { 2 } else { 1 }
    } else {
        0
    }
}

fn is_single_operator(byte: u8) -> bool
    ensures { result ≡ is_single_operator byte }
{
    byte == b'+' || byte == b'*' || byte == b'/' || byte == b'%'
}

/// The bytes of the longest operator of these three bytes, or 0.
fn operator_length_of(first: u8, second: u8, third: u8) -> usize
    ensures { result ≡ operator_length first second third }
{
    if first == b'<' {
        less_length(second, third)
    } else if first == b'[' {
        index_length(second, third)
    } else if is_single_operator(first) {
        1
    } else {
        pair_length(first, second)
    }
}

/// The bytes of the longest operator that stands first, or 0.
fn operator_length(text: &[u8]) -> usize
    ensures { IsLongest IsOperator text.now result }
{
    operator_length_of(byte_at(text, 0), byte_at(text, 1), byte_at(text, 2))
}

/// The bytes of the longest name of a method that stands first, or 0.
pub fn method_name_length(text: &[u8]) -> usize
    ensures { IsLongest IsMethodName text.now result }
{
    let word = word_length(text);
    if word == 0 {
        operator_length(text)
    } else if is_ending(byte_at(text, word)) {
        word + 1
    } else {
        word
    }
}
