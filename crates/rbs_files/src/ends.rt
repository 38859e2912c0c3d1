//! Where phrases end.

ghost use Rattle.std.specs.Prelude.{◌≡◌, ◌<◌, ◌∷◌, ◌↔◌, length, IsTrue, IfOk, OnOk};
ghost use Rattle.rbs_terminals.specs.declared.token.Spot.{Spot};
ghost use Rattle.rbs_terminals.specs.declared.token.Keyword.TheVariants as keyword;
ghost use Rattle.rbs_types.specs.Symbols.{word};
ghost use Rattle.rbs_phrases.specs.Fronts.{whole};
ghost use Rattle.rbs_declarations.specs.Words.{end_at};

use rbs_phrases::Cursor;

/// Where the last terminal ends that was taken.
pub fn end_here(cursor: &Cursor) -> u32
    ensures { result ≡ end_at (whole cursor.now).last cursor.now.rest }
{
    match cursor.before() {
        Some(end) => end,
        None => cursor.end(),
    }
}
