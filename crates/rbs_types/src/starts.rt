//! Where a phrase that is read begins.

ghost use Rattle.std.specs.Prelude.{◌≡◌, IfOk};
ghost use Rattle.rbs_types.specs.Machine as machine;

use crate::parts::{empty_level, level_of};
use crate::stack::Stack;
use crate::state::{Focus, Frame, Members, State};
use crate::tall::Talls;
use plain_data::NoMemory;
use sig_model::ty::TypeName;
use std::alloc::Global;

/// Where a type begins. Takes no memory.
pub fn start(alloc: Global) -> State
    ensures { result ≡ machine.start }
{
    State {
        frames: Stack::new(alloc),
        focus: Focus::Type {
            level: empty_level(alloc),
        },
    }
}

/// Where the parameters, the block and the result of a method begin. Takes no memory.
pub fn start_function(alloc: Global) -> State
    ensures { result ≡ machine.start_function }
{
    State {
        frames: Stack::new(alloc),
        focus: Focus::Function {
            level: level_of(alloc, Members::Closed),
        },
    }
}

/// Behind the bracket of this name's arguments.
pub fn start_arguments(alloc: Global, name: TypeName) -> Result<State, NoMemory>
    ensures { IfOk result (λ state. state ≡ machine.start_arguments name) }
{
    let frame = Frame::Arguments {
        name,
        done: Talls::new(alloc),
        outer: level_of(alloc, Members::Closed),
    };
    let frames = Stack::new(alloc).with(frame)?;
    Ok(State {
        frames,
        focus: Focus::Type {
            level: empty_level(alloc),
        },
    })
}
