//! What a character may begin.

ghost use Rattle.std.specs.Prelude.{◌≡◌};
ghost use Rattle.ruby_tokens.specs.Starts.{sort_of, mark_sort};

use source_text::{is_blank, starts_word};

/// What a character begins where a token may begin.
#[derive(Clone, Copy, Debug, Drop)]
pub enum Sort {
    Blank,
    Comment,
    Word,
    Zero,
    Digit,
    Minus,
    Single,
    Double,
    Symbol,
    Open,
    Close,
    Comma,
    Dot,
    Equals,
    Semicolon,
    Newline,
    Nothing,
}

/// What begins with the character.
pub fn sort_of(c: char) -> Sort
    ensures { result ≡ sort_of c }
{
    if starts_word(c) {
        Sort::Word
    } else if is_blank(c) {
        Sort::Blank
    } else if c == '0' {
        Sort::Zero
    } else if c.is_ascii_digit() {
        Sort::Digit
    } else {
        mark_sort(c)
    }
}

fn mark_sort(c: char) -> Sort
    ensures { result ≡ mark_sort c }
{
    match c {
        '#' => Sort::Comment,
        '-' => Sort::Minus,
        '\'' => Sort::Single,
        '"' => Sort::Double,
        ':' => Sort::Symbol,
        '(' => Sort::Open,
        ')' => Sort::Close,
        ',' => Sort::Comma,
        '.' => Sort::Dot,
        '=' => Sort::Equals,
        ';' => Sort::Semicolon,
        '\n' => Sort::Newline,
        _ => Sort::Nothing,
    }
}
