//! Heights as far as they are told apart, and those of the parts of a function.
#![tactic(auto, using(crate::proofs::Caps::capped_max))]

ghost use Rattle.std.specs.Prelude.{◌≡◌, ◌+◌};
ghost use Rattle.rbs_types.specs.Capped.{capped};
ghost use Rattle.rbs_types.specs.Needs.{parameters_height, kept_height, listed_height, head_height};

use crate::state::{Head, Listed, Parameters, Slot};

/// The height up to which heights are told apart: what is higher counts as that high.
pub const MOST: u32 = 1000;

/// One level above a height.
pub fn above(levels: u32) -> u32
    ensures { result ≡ capped (levels + 1) }
{
    if levels < MOST { levels + 1 } else { MOST }
}

impl Parameters {
    /// The height of the tallest type, as far as heights are told apart.
    pub fn levels(&self) -> u32
        ensures { result ≡ capped (parameters_height self.now) }
    {
        self.required
            .levels()
            .max(self.optional.levels())
            .max(self.rest.levels())
            .max(self.trailing.levels())
            .max(self.keys.levels())
    }

    /// The height of the tallest type aside from the rest, as far as heights are told apart.
    pub fn levels_beside_rest(&self) -> u32
        ensures { result ≡ capped (kept_height self.now Slot.Rest) }
    {
        self.required
            .levels()
            .max(self.optional.levels())
            .max(self.trailing.levels())
            .max(self.keys.levels())
    }
}

impl Listed {
    /// The height of the tallest type, as far as heights are told apart.
    pub fn levels(&self) -> u32
        ensures { result ≡ capped (listed_height self.now) }
    {
        self.parameters.get().levels().max(self.key_rest.levels())
    }
}

impl Head {
    /// The height of the tallest type, as far as heights are told apart.
    pub fn levels(&self) -> u32
        ensures { result ≡ capped (head_height self.now) }
    {
        self.listed.levels().max(self.block.levels())
    }
}
