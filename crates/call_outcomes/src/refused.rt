//! Why a call has no outcome.

ghost use Rattle.std.specs.Prelude.{◌≡◌, ◌↔◌, IfOk, IsErrOf, false};
ghost use Rattle.call_outcomes.specs.Code.{is_fault};
ghost use Rattle.call_outcomes.specs.Outcomes.{missing};

use crate::loading::LoadRefused;
use crate::outcome::{Outcome, missing};
use plain_data::{NoMemory, Word};
use std::alloc::Global;

/// Why a command line has no outcome yet: a file could not be read, or there was no memory.
#[derive(Clone, Copy, Debug, PartialEq, Eq)]
pub enum PlanRefused {
    Fault,
    NoMemory,
}

impl From<NoMemory> for PlanRefused {
    ghost use Rattle.std.specs.Prelude.{◌≡◌};
    ghost use Rattle.call_outcomes.specs.declared.refused.PlanRefused.TheVariants as plan_refused;

    ghost from_gives = { λ _ e. e ≡ plan_refused.NoMemory };

    fn from(_: NoMemory) -> Self {
        PlanRefused::NoMemory
    }
}

/// What is answered where the file of this name was not loaded.
pub fn refusal(alloc: Global, name: &Word, refused: LoadRefused) -> Result<Outcome, PlanRefused>
    ensures fault { IsErrOf result PlanRefused.Fault ↔ (refused ≡ LoadRefused.Fault) }
    ensures missing { IfOk result (λ outcome. (refused ≡ LoadRefused.Missing) × (outcome ≡ missing name.now)) }
    ensures status { IfOk result (λ outcome. is_fault outcome.status ≡ false) }
{
    match refused {
        LoadRefused::Missing => Ok(missing(alloc, name)?),
        LoadRefused::Fault => Err(PlanRefused::Fault),
        LoadRefused::NoMemory => Err(PlanRefused::NoMemory),
    }
}
