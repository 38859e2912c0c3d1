//! Keywords that may stand next.

ghost use Rattle.std.specs.Prelude.{◌≡◌, ◌≤◌, ◌↔◌, length, Some, true, IsTrue, IfOk, OnOk};
ghost use Rattle.rbs_phrases.specs.Fronts.{whole};
ghost use Rattle.rbs_files.specs.Keywords.{WordedTo, IsWordNext, SkipsWord};

use rbs_phrases::{Cursor, Unread};
use rbs_terminals::Keyword;

/// This keyword was found.
fn is_found(found: Option<Keyword>, keyword: Keyword) -> bool
    ensures { IsTrue result ↔ (found ≡ Some keyword) }
{
    match found {
        Some(found) => found == keyword,
        None => false,
    }
}

/// The next terminal is this keyword.
pub fn keyword_next(cursor: &Cursor, keyword: Keyword) -> bool
    ensures { IsTrue result ↔ IsWordNext keyword cursor.now.rest }
{
    is_found(cursor.keyword(), keyword)
}

/// Takes the next terminal if it is this keyword, and answers whether it did.
pub fn skip_keyword(cursor: &mut Cursor, keyword: Keyword) -> Result<bool, Unread>
    ensures skipped { IfOk result (λ skipped. SkipsWord keyword skipped cursor.old.rest cursor.new.rest) }
    ensures end { IfOk result (λ skipped. skipped ≡ true → WordedTo keyword cursor.new.end cursor.old.rest cursor.new.rest) }
    ensures kept { OnOk result (whole cursor.new ≡ whole cursor.old) }
    ensures shorter { OnOk result (length cursor.new.rest ≤ length cursor.old.rest) }
{
    if keyword_next(cursor, keyword) {
        cursor.pass()?;
        Ok(true)
    } else {
        Ok(false)
    }
}
