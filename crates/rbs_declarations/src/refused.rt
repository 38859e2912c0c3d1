//! Why a step gives no state.

ghost use Rattle.std.specs.Prelude.{◌≡◌, Err};

use crate::state::State;
use plain_data::NoMemory;

/// Why a token leads to no state.
#[derive(Clone, Copy, Debug, PartialEq, Eq)]
pub enum Stuck {
    /// It continues no text.
    Syntax,
    /// There was no memory for what it makes.
    NoMemory,
}

impl From<NoMemory> for Stuck {
    ghost use Rattle.std.specs.Prelude.{◌≡◌};
    ghost use Rattle.rbs_declarations.specs.declared.refused.Stuck.TheVariants.{NoMemory};

    ghost from_gives = { λ _ stuck. stuck ≡ NoMemory };

    fn from(_: NoMemory) -> Stuck {
        Stuck::NoMemory
    }
}

/// No text goes on so: what was read is dropped.
pub fn refuse<T: Drop>(_read: T) -> Result<State, Stuck>
    ensures { result ≡ Err Stuck.Syntax }
{
    Err(Stuck::Syntax)
}
