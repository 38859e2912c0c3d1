//! Files.

ghost use Rattle.std.specs.Prelude.{◌≡◌, ◌<◌, ◌↔◌, [], length, IsTrue, IfOk, OnOk};
ghost use Rattle.sig_model.specs.PlainDecl.{plain_decls};
ghost use Rattle.rbs_phrases.specs.Fronts.{whole};
ghost use Rattle.rbs_declarations.specs.Limits.{IsText};
ghost use Rattle.rbs_files.specs.Onward.{GrowsFile};

use crate::notes::notes_on;
use crate::parts::declaration_from;
use plain_data::Many;
use rbs_declarations::plain::Decls;
use rbs_phrases::{Cursor, Unread};
use rbs_terminals::Terminals;
use sig_model::decl::Decl;
use std::alloc::Global;

/// No terminal is left.
fn at_end(cursor: &Cursor) -> bool
    ensures { IsTrue result ↔ (cursor.now.rest ≡ []) }
{
    cursor.sort().is_none()
}

/// Adds one more to the declarations.
fn further_on(
    alloc: Global,
    cursor: &mut Cursor,
    file: u32,
    decls: &mut Decls,
) -> Result<(), Unread>
    ensures phrase { OnOk result (GrowsFile 400 file (whole cursor.old).last decls.old decls.new cursor.old.rest cursor.new.rest) }
    ensures kept { OnOk result (whole cursor.new ≡ whole cursor.old) }
    ensures shorter { OnOk result (length cursor.new.rest < length cursor.old.rest) }
{
    let noted = notes_on(alloc, cursor)?;
    let next = declaration_from(alloc, cursor, file, 400, noted)?;
    decls.add(next)?;
    Ok(())
}

/// The declarations that the terminals of a whole file spell, within the limits.
///
/// # Errors
///
/// `Other` where they spell none, and `NoMemory` where there is none for them.
pub fn file_on(alloc: Global, file: u32, terminals: Terminals) -> Result<Many<Decl>, Unread>
    ensures { IfOk result (λ ds. IsText file (plain_decls ds) terminals.entry) }
{
    let mut cursor = Cursor::new(terminals);
    let mut decls = Decls::new(alloc);
    while !at_end(&cursor) {
        further_on(alloc, &mut cursor, file, &mut decls)?;
    }
    Ok(decls.into_items())
}
