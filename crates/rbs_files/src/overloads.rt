//! Overloads of methods.

ghost use Rattle.std.specs.Prelude.{◌≡◌, ◌<◌, length, IfOk, OnOk};
ghost use Rattle.rbs_phrases.specs.Fronts.{whole};
ghost use Rattle.rbs_files.specs.Within.{IsOverloads};

use crate::params::params_on;
use crate::types::function_on;
use rbs_declarations::plain::Methods;
use rbs_phrases::{Cursor, Unread};
use rbs_terminals::Mark;
use rbs_types::FunctionHead;
use std::alloc::Global;

/// The overloads of a method, with a `|` between them.
pub fn overloads_on(alloc: Global, cursor: &mut Cursor, room: u32) -> Result<Methods, Unread>
    ensures phrase { IfOk result (λ ms. IsOverloads room ms cursor.old.rest cursor.new.rest) }
    ensures kept { OnOk result (whole cursor.new ≡ whole cursor.old) }
    ensures shorter { OnOk result (length cursor.new.rest < length cursor.old.rest) }
{
    let mut done = Methods::new(alloc);
    let mut more = true;
    while more {
        let params = params_on(alloc, cursor, room)?;
        let mut head = FunctionHead::new(alloc);
        let outcome = function_on(alloc, cursor, room, &mut head)?;
        done.add(params, head, outcome)?;
        more = cursor.skip(Mark::Bar)?;
    }
    Ok(done)
}
