//! Why a text was refused.

use plain_data::NoMemory as Exhausted;
use sig_model::place::Place;

/// Why a text was refused. A place is that of one byte, with no width: the end of the longest front of its tokens with which a text begins that
/// is read, 0 where it has none.
#[derive(Clone, Copy, Debug, PartialEq, Eq)]
pub enum ParseRefused {
    /// No text goes on with the token behind the place, or no text ends there.
    Syntax(Place),
    /// Only texts past a limit go on with the token behind the place. A text of more than 1,048,576 bytes is refused so at its first byte.
    Limit(Place),
    NoMemory,
}

impl From<Exhausted> for ParseRefused {
    ghost use Rattle.std.specs.Prelude.{◌≡◌};
    ghost use Rattle.rbs_parser.specs.declared.refused.ParseRefused.TheVariants.{NoMemory};

    ghost from_gives = { λ _ e. e ≡ NoMemory };

    fn from(_: Exhausted) -> ParseRefused {
        ParseRefused::NoMemory
    }
}
