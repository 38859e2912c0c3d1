//! The outcome of a list.

ghost use Rattle.std.specs.Prelude.{◌≡◌, IfOk, false};
ghost use Rattle.diagnostics.specs.Lines.{AllSmall};
ghost use Rattle.call_outcomes.specs.Code.{is_fault};
ghost use Rattle.call_outcomes.specs.Outcomes.{listed, list_status};

use crate::outcome::Outcome;
use crate::status::Status;
use diagnostics::{Source, add_lines, add_summary};
use plain_data::{Many, NoMemory};
use sig_model::diag::Diag;
use std::alloc::Global;

/// The status of a list.
fn list_status(list: &[Diag]) -> Status
    ensures status { result ≡ list_status list.now }
    ensures fault { is_fault result ≡ false }
{
    match list {
        [] => Status::Done,
        [_, ..] => Status::Listed,
    }
}

/// The outcome of a list over the files of a call, of which the first has the number 2: a line for each diagnostic, and the summary.
pub fn listed(alloc: Global, sources: &[Source], list: &[Diag]) -> Result<Outcome, NoMemory>
    requires { AllSmall sources.now }
    ensures outcome { IfOk result (λ outcome. outcome ≡ listed sources.now list.now) }
    ensures status { IfOk result (λ outcome. is_fault outcome.status ≡ false) }
{
    let mut out = Many::new(alloc);
    add_lines(alloc, sources, list, &mut out)?;
    add_summary(alloc, sources.len() as u64, list.len() as u64, &mut out)?;
    Ok(Outcome {
        out,
        err: Many::new(alloc),
        status: list_status(list),
    })
}
