//! One signature file, read: its declarations, or its fault.

ghost use Rattle.std.specs.Prelude.{◌≡◌, ◌≤◌, ℕ, List, length, IfOk};
ghost use Rattle.sig_model.specs.declared.diag.Diag.{Diag};
ghost use Rattle.call_outcomes.specs.Loads.{IsLoaded, IsSmall};
ghost use Rattle.print_command.specs.Reads.{IsRead, fault_in};

use call_outcomes::Loaded;
use plain_data::{Many, NoMemory};
use rbs_lexer::divide;
use rbs_parser::{ParseRefused, parse};
use sig_model::decl::Decl;
use sig_model::diag::{Diag, DiagId};
use sig_model::place::Place;
use std::alloc::Global;

/// A signature file that was read: its declarations, or why it is refused.
#[derive(Debug, Drop)]
pub enum Reading {
    Good(Many<Decl>),
    Refused(Diag),
}

/// A refusal with no arguments. Takes no memory.
fn refused(alloc: Global, place: Place, id: DiagId) -> Reading
    ensures { result ≡ Reading.Refused (fault_in place id) }
{
    Reading::Refused(Diag {
        place,
        id,
        args: Many::new(alloc),
    })
}

/// Reads the text of the file of this number.
fn read_text(alloc: Global, file: u32, bytes: &[u8]) -> Result<Reading, NoMemory>
    requires { length bytes.now ≤ 1048576 }
    ensures { IfOk result (IsRead file bytes.now) }
{
    let divided = divide(alloc, file, bytes)?;
    match parse(alloc, file, bytes, &divided) {
        Ok(decls) => Ok(Reading::Good(decls)),
        Err(ParseRefused::Syntax(place)) => {
            Ok(refused(alloc, place, DiagId::SignatureSyntaxError))
        }
        Err(ParseRefused::Limit(place)) => Ok(refused(alloc, place, DiagId::StrictLimit)),
        Err(ParseRefused::NoMemory) => Err(NoMemory),
    }
}

/// Reads the file of this number, of which this is kept.
pub fn read_file(alloc: Global, file: u32, loaded: &Loaded) -> Result<Reading, NoMemory>
    requires { IsSmall loaded.now }
    ensures { IfOk result (λ reading. (bytes : List ℕ) → IsLoaded bytes loaded.now → IsRead file bytes reading) }
{
    match loaded {
        Loaded::Text(text) => read_text(alloc, file, text.as_slice()),
        Loaded::TooLarge => Ok(refused(
            alloc,
            Place {
                file,
                start: 0,
                end: 0,
            },
            DiagId::StrictLimit,
        )),
    }
}
