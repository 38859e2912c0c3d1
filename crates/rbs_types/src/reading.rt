//! A reader of types within the limits, which takes one token at a time.

ghost use Rattle.std.specs.Prelude.{◌≡◌, IfOk};
ghost use Rattle.rbs_types.specs.Machine as machine;
ghost use Rattle.rbs_types.specs.Takes.{Takes, Finishes};

use crate::refused::Stuck;
use crate::starts::start;
use crate::state::State;
use crate::step;
use crate::within::is_within;
use plain_data::{Boxed, NoMemory};
use rbs_terminals::{Kind, Token};
use sig_model::ty::Ty;
use std::alloc::Global;

/// How high a type may be.
const MAX_HEIGHT: u32 = 200;

/// Why a text is no type. Where it isn't for want of memory, with the byte at which the last token ends that was taken, 0 where none was.
#[derive(Clone, Copy, Debug, PartialEq, Eq)]
pub enum Refused {
    /// No text goes on with the next token, or ends here.
    Syntax(u32),
    /// Only texts past the limits go on with the next token.
    Limit(u32),
    /// There was no memory for the type.
    NoMemory,
}

impl From<NoMemory> for Refused {
    ghost use Rattle.std.specs.Prelude.{◌≡◌};
    ghost use Rattle.rbs_types.specs.declared.reading.Refused.TheVariants.{NoMemory};

    ghost from_gives = { λ _ refused. refused ≡ NoMemory };

    fn from(_: NoMemory) -> Refused {
        Refused::NoMemory
    }
}

/// What was read so far, and the byte at which its last token ends, 0 where there is none.
#[derive(Drop)]
pub struct Reading {
    pub state: Boxed<State>,
    pub end: u32,
}

impl Reading {
    /// Where nothing was read yet.
    pub fn new(alloc: Global) -> Result<Reading, NoMemory>
        ensures { IfOk result (λ r. (r.state ≡ machine.start) × (r.end ≡ 0)) }
    {
        Ok(Reading {
            state: Boxed::new(alloc, start(alloc))?,
            end: 0,
        })
    }

    /// Takes the next token.
    ///
    /// # Errors
    ///
    /// `Syntax` where the token continues no text, `Limit` where it continues only texts that are higher than 200, have more than 400 open
    /// brackets at a place, or hold an integer past 64 bits, and `NoMemory` where there is none for what is read with it.
    pub fn take(self, alloc: Global, token: Token) -> Result<Reading, Refused>
        ensures { Takes self.state self.end token result }
    {
        let Reading { state, end } = self;
        let past = matches!(token.kind, Kind::PastInteger);
        let token_end = token.spot.end;
        match step::advance(alloc, state, token) {
            Ok(state) => {
                if past || !is_within(state.get(), MAX_HEIGHT) {
                    return Err(Refused::Limit(end));
                }
                Ok(Reading {
                    state,
                    end: token_end,
                })
            }
            Err(Stuck::Syntax) => Err(Refused::Syntax(end)),
            Err(Stuck::NoMemory) => Err(Refused::NoMemory),
        }
    }

    /// The type that was read.
    ///
    /// # Errors
    ///
    /// `Syntax` where no type is whole, and `NoMemory` where there is none for it.
    pub fn finish(self, alloc: Global) -> Result<Ty, Refused>
        ensures { Finishes self.state self.end result }
    {
        let Reading { state, end } = self;
        match step::finish(alloc, state.into_inner())? {
            Some(tall) => Ok(tall.into_ty()),
            None => Err(Refused::Syntax(end)),
        }
    }
}
