//! Why a text has no tokens.

use plain_data::NoMemory;
use sig_model::place::Place;

/// Why a text has no tokens. A place is one byte's, with no width.
#[derive(Clone, Copy, Debug, PartialEq, Eq)]
pub enum LexRefused {
    /// The byte begins no token: a text that isn't UTF-8 has such a byte.
    Fault(Place),
    /// The integer that begins at the byte is below -2^63 or above 2^63-1.
    Limit(Place),
    /// There was no memory for the tokens.
    NoMemory,
}

impl From<NoMemory> for LexRefused {
    ghost use Rattle.std.specs.Prelude.{◌≡◌};
    ghost use Rattle.rbs_lexer.specs.declared.refused.LexRefused.TheVariants as why;

    ghost from_gives = { λ _ e. e ≡ why.NoMemory };

    fn from(_: NoMemory) -> Self {
        LexRefused::NoMemory
    }
}
