//! States, by what stands directly before their place.

ghost use Rattle.std.specs.Prelude.{◌≡◌, Some};
ghost use Rattle.rbs_declarations.specs.declared.state.Focus.TheVariants as focus;
ghost use Rattle.rbs_declarations.specs.Machine as machine;
ghost use Rattle.rbs_declarations.specs.Does.{Does};

use crate::plain::Decls;
use crate::refused::Stuck;
use crate::state::{Focus, Frame, Purpose, State};
use plain_data::Boxed;
use rbs_types::Stack;
use std::alloc::Global;

/// What stands around the place: the file by its number, what was declared so far, and the open declarations.
#[derive(Drop)]
pub struct Around {
    pub file: u32,
    pub decls: Decls,
    pub frames: Stack<Frame>,
}

/// The state with this directly before the place.
pub fn at(focus: Focus, around: Around) -> State
    ensures { machine.at focus around.decls around.frames ≡ Some result }
{
    let Around { decls, frames, .. } = around;
    State {
        decls,
        frames,
        focus,
    }
}

/// The state at this place inside of a type for this purpose.
fn inside_of(
    alloc: Global,
    purpose: Purpose,
    inner: Boxed<rbs_types::State>,
    around: Around,
) -> Result<State, Stuck>
    ensures { Does (machine.at (focus.Typed purpose inner) around.decls around.frames) result }
{
    let purpose = Boxed::new(alloc, purpose)?;
    Ok(at(Focus::Typed { purpose, inner }, around))
}

/// The state at the first place of a type for this purpose.
pub fn typed_at(
    alloc: Global,
    purpose: Purpose,
    inner: rbs_types::State,
    around: Around,
) -> Result<State, Stuck>
    ensures { Does (machine.at (focus.Typed purpose inner) around.decls around.frames) result }
{
    let inner = Boxed::new(alloc, inner)?;
    inside_of(alloc, purpose, inner, around)
}
