//! Why a phrase wasn't read.

use plain_data::NoMemory;

/// Why a phrase wasn't read.
#[derive(Clone, Copy, Debug, PartialEq, Eq)]
pub enum Unread {
    /// The terminals spell none within the limits.
    Other,
    /// There was no memory for it.
    NoMemory,
}

impl From<NoMemory> for Unread {
    ghost use Rattle.std.specs.Prelude.{◌≡◌};
    ghost use Rattle.rbs_phrases.specs.declared.unread.Unread.TheVariants.{NoMemory};

    ghost from_gives = { λ _ unread. unread ≡ NoMemory };

    fn from(_: NoMemory) -> Unread {
        Unread::NoMemory
    }
}
