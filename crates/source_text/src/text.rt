ghost use Rattle.std.specs.Prelude.{◌≡◌, IfOk, MatchOption, IsUtf8};
ghost use Rattle.std.specs.Str.{chars};
ghost use Rattle.source_text.specs.Characters.{is_blank, is_name_character, starts_word};

use plain_data::{Many, NoMemory};
use std::alloc::Global;

/// The characters of a text in UTF-8, or `None` where the bytes are no UTF-8.
pub fn characters(alloc: Global, bytes: &[u8]) -> Result<Option<Many<char>>, NoMemory>
    ensures { IfOk result (λ found. MatchOption found (¬ (IsUtf8 bytes.now)) (λ cs. IsUtf8 bytes.now × (cs ≡ chars bytes.now))) }
{
    let Ok(text) = str::from_utf8(bytes) else {
        return Ok(None);
    };
    let characters: Vec<char> = text.chars().collect(alloc)?;
    Ok(Some(Many::from_vec(characters)))
}

/// A space, a tab or a carriage return.
pub fn is_blank(c: char) -> bool
    ensures { result ≡ is_blank c }
{
    c == ' ' || c == '\t' || c == '\r'
}

/// Whether a name may go on with this character: an ASCII letter or digit, `_`, or past ASCII one that
/// Unicode's XID_Continue holds.
pub fn is_name_character(c: char) -> bool
    ensures { result ≡ is_name_character c }
{
    if c.is_ascii() {
        c.is_ascii_alphanumeric() || c == '_'
    } else {
        unicode_ident::is_xid_continue(c)
    }
}

/// Whether a word may begin with this character: an ASCII letter or `_`.
pub fn starts_word(c: char) -> bool
    ensures { result ≡ starts_word c }
{
    c.is_ascii_alphabetic() || c == '_'
}
