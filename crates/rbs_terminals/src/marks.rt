//! The marks of the language.

ghost use Rattle.std.specs.Prelude.{◌≡◌, [], ◌∷◌, IfSome};
ghost use Rattle.rbs_terminals.specs.Marks as marks;

use crate::token::Mark;

/// The mark of one byte.
fn single_mark(byte: u8) -> Option<Mark>
    ensures value { result ≡ marks.single_mark byte }
    ensures text { IfSome result (λ mark. marks.mark_text mark ≡ byte ∷ []) }
{
    match byte {
        b'<' => Some(Mark::Less),
        b':' => Some(Mark::Colon),
        b',' => Some(Mark::Comma),
        b'.' => Some(Mark::Dot),
        b'@' => Some(Mark::At),
        b'[' => Some(Mark::OpenSquare),
        b']' => Some(Mark::CloseSquare),
        b'(' => Some(Mark::Open),
        b')' => Some(Mark::Close),
        b'{' => Some(Mark::OpenBrace),
        b'}' => Some(Mark::CloseBrace),
        b'|' => Some(Mark::Bar),
        b'&' => Some(Mark::Amp),
        b'^' => Some(Mark::Caret),
        b'?' => Some(Mark::Question),
        b'!' => Some(Mark::Bang),
        b'=' => Some(Mark::Equals),
        b'*' => Some(Mark::Star),
        b'-' => Some(Mark::Minus),
        b'>' => Some(Mark::Greater),
        b'+' => Some(Mark::Plus),
        b'/' => Some(Mark::Slash),
        b'%' => Some(Mark::Percent),
        _ => None,
    }
}

/// The mark of two bytes.
fn double_mark(first: u8, second: u8) -> Option<Mark>
    ensures value { result ≡ marks.double_mark first second }
    ensures text { IfSome result (λ mark. marks.mark_text mark ≡ first ∷ second ∷ []) }
{
    match (first, second) {
        (b':', b':') => Some(Mark::Scope),
        (b'*', b'*') => Some(Mark::DoubleStar),
        (b'-', b'>') => Some(Mark::Arrow),
        _ => None,
    }
}

/// The mark that a text is, if it is one.
pub fn mark_of(text: &[u8]) -> Option<Mark>
    ensures value { result ≡ marks.mark_of text.now }
    ensures text { IfSome result (λ mark. marks.mark_text mark ≡ text.now) }
{
    match text {
        [byte] => single_mark(*byte),
        [first, second] => double_mark(*first, *second),
        _ => None,
    }
}
