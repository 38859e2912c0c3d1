//! What a call writes, and the texts that are one line.

ghost use Rattle.std.specs.Prelude.{◌≡◌, IfOk};
ghost use Rattle.call_outcomes.specs.Outcomes.{usage, missing, line, read_fault};

use crate::Status;
use plain_data::{Many, NoMemory, Word};
use std::alloc::Global;

/// What a call writes to its two sinks, and its status.
#[derive(Debug, Drop)]
pub struct Outcome {
    pub out: Many<u8>,
    pub err: Many<u8>,
    pub status: Status,
}

/// A text with the end of its line.
fn line(alloc: Global, text: &[u8]) -> Result<Many<u8>, NoMemory>
    ensures { IfOk result (λ bytes. bytes ≡ line text.now) }
{
    let mut bytes = Many::from_slice(alloc, text)?;
    bytes.push(b'\n')?;
    Ok(bytes)
}

/// The outcome of a wrong command line, by what is wrong with it.
pub fn usage(alloc: Global, what: &str) -> Result<Outcome, NoMemory>
    ensures { IfOk result (λ outcome. outcome ≡ usage what.now) }
{
    let mut text = Many::from_slice(alloc, b"usage: ")?;
    text.extend(what.as_bytes())?;
    Ok(Outcome {
        out: Many::new(alloc),
        err: line(alloc, text.as_slice())?,
        status: Status::Usage,
    })
}

/// The outcome where a file isn't there.
pub fn missing(alloc: Global, name: &Word) -> Result<Outcome, NoMemory>
    ensures { IfOk result (λ outcome. outcome ≡ missing name.now) }
{
    let mut text = Many::from_slice(alloc, b"missing file: ")?;
    text.extend(name.as_bytes())?;
    Ok(Outcome {
        out: Many::new(alloc),
        err: line(alloc, text.as_slice())?,
        status: Status::Missing,
    })
}

/// The outcome where a file could not be read.
pub fn read_fault(alloc: Global) -> Result<Outcome, NoMemory>
    ensures { IfOk result (λ outcome. outcome ≡ read_fault) }
{
    Ok(Outcome {
        out: Many::new(alloc),
        err: line(alloc, b"read fault")?,
        status: Status::ReadFault,
    })
}
