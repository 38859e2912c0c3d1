use plain_data::NoMemory;

/// Why a step of the lexer gives nothing.
#[derive(Clone, Copy, Debug, Drop)]
pub enum Refused {
    /// No text of tokens goes on so.
    NoToken,
    NoMemory,
}

impl From<NoMemory> for Refused {
    ghost use Rattle.std.specs.Prelude.{◌≡◌};
    ghost use Rattle.ruby_tokens.specs.declared.refused.Refused.TheVariants as why;

    ghost from_gives = { λ _ e. e ≡ why.NoMemory };

    fn from(_: NoMemory) -> Refused {
        Refused::NoMemory
    }
}
