//! Places in the core signature.

ghost use Rattle.std.specs.Prelude.{◌≡◌};
ghost use Rattle.core_texts.specs.Shapes.{span};

use sig_model::place::Place;

/// The number of the core signature's file.
const FILE: u32 = 0;

/// From the byte `start` up to the byte `end`, which is one past the last.
pub fn span(start: u32, end: u32) -> Place
    ensures { result ≡ span start end }
{
    Place {
        file: FILE,
        start,
        end,
    }
}
