//! The comments and the annotations before a declaration or a member.

ghost use Rattle.std.specs.Prelude.{◌≡◌, ◌<◌, [], ◌∷◌, length, IfOk, OnOk};
ghost use Rattle.rbs_terminals.specs.declared.token.Spot.{Spot};
ghost use Rattle.rbs_types.specs.Symbols.{token};
ghost use Rattle.rbs_phrases.specs.Fronts.{whole};
ghost use Rattle.rbs_declarations.specs.Grammar.{notes_at};
ghost use Rattle.rbs_files.specs.Onward.{IsNoted, Annotated};

use plain_data::Many;
use rbs_phrases::{Cursor, Unread};
use rbs_terminals::{Kind, Lead};
use sig_model::decl::Notes;
use std::alloc::Global;

/// The comments and the annotations before a declaration or a member, where that begins, and its first terminal.
#[derive(Drop)]
pub struct Noted {
    pub notes: Notes,
    pub start: u32,
    pub kind: Kind,
}

fn is_annotation(kind: &Kind) -> bool {
    matches!(kind, Kind::Annotation(_))
}

/// The next terminal, with its comments.
fn first_on(alloc: Global, cursor: &mut Cursor) -> Result<Noted, Unread>
    ensures phrase { IfOk result (λ n. (s : Spot) × (cursor.old.rest ≡ token n.kind s ∷ cursor.new.rest) × (n.notes ≡ notes_at cursor.old.rest []) × (n.start ≡ s.start) × (cursor.new.end ≡ s.end)) }
    ensures kept { OnOk result (whole cursor.new ≡ whole cursor.old) }
    ensures shorter { OnOk result (length cursor.new.rest < length cursor.old.rest) }
{
    let Lead {
        kind,
        start,
        comments,
        ..
    } = cursor.lead()?;
    Ok(Noted {
        notes: Notes {
            comments,
            annotations: Many::new(alloc),
        },
        start,
        kind,
    })
}

/// Behind an annotation: the next terminal, with the annotation before it.
fn further_on(cursor: &mut Cursor, noted: Noted) -> Result<Noted, Unread>
    ensures phrase { (s : Spot) → IfOk result (λ n. (s' : Spot) × (n.start ≡ s'.start) × (cursor.new.end ≡ s'.end) × Annotated noted cursor.old.rest s n cursor.new.rest s') }
    ensures comments { IfOk result (λ n. n.notes.comments ≡ noted.notes.comments) }
    ensures kept { OnOk result (whole cursor.new ≡ whole cursor.old) }
    ensures shorter { OnOk result (length cursor.new.rest < length cursor.old.rest) }
{
    let Noted { notes, kind, .. } = noted;
    let Kind::Annotation(text) = kind else {
        return Err(Unread::Other);
    };
    let Notes {
        comments,
        mut annotations,
    } = notes;
    annotations.push(text)?;
    let Lead { kind, start, .. } = cursor.lead()?;
    Ok(Noted {
        notes: Notes {
            comments,
            annotations,
        },
        start,
        kind,
    })
}

/// The comments and the annotations before a declaration or a member, and its first terminal.
///
/// The comments are those of the very first terminal.
pub fn notes_on(alloc: Global, cursor: &mut Cursor) -> Result<Noted, Unread>
    ensures phrase { IfOk result (λ n. IsNoted n cursor.new.end cursor.old.rest cursor.new.rest) }
    ensures kept { OnOk result (whole cursor.new ≡ whole cursor.old) }
    ensures shorter { OnOk result (length cursor.new.rest < length cursor.old.rest) }
{
    let mut noted = first_on(alloc, cursor)?;
    while is_annotation(&noted.kind) {
        noted = further_on(cursor, noted)?;
    }
    Ok(noted)
}
