//! The declarations of a file.

ghost use Rattle.std.specs.Prelude.{◌≡◌, ◌++◌};
ghost use Rattle.std.specs.Option.{option_to_list};
ghost use Rattle.sig_model.specs.PlainDecl.{PlainDecls};
ghost use Rattle.rbs_declarations.specs.Answers.{Answers};
ghost use Rattle.rbs_declarations.specs.Limits.{IsWritten};
ghost use Rattle.rbs_declarations.specs.Machine as machine;

use crate::reading::Reading;
use plain_data::Many;
use rbs_terminals::{Terminals, Token};
use rbs_types::Refused;
use sig_model::decl::Decl;
use std::alloc::Global;

/// The declarations that these terminals spell, with `stop` behind them, where nothing was read yet.
fn read_from(
    alloc: Global,
    file: u32,
    start: Reading,
    terminals: Terminals,
    stop: Option<Token>,
) -> Result<Many<Decl>, Refused>
    requires state { start.state ≡ machine.start_of_file }
    requires end { start.end ≡ 0 }
    ensures { Answers file (terminals.entry ++ option_to_list stop) result }
{
    let mut terminals = terminals;
    let mut reading = start;
    while let Some(token) = terminals.next()? {
        reading = reading.take(alloc, file, token)?;
    }
    if let Some(token) = stop {
        reading = reading.take(alloc, file, token)?;
    }
    reading.finish(alloc, file)
}

/// The declarations that the terminals of the file of this number spell, with `stop` behind them: the terminal at which the file stops being
/// tokens, `Kind::Stray` or `Kind::PastInteger`, where it does. Tokens spell one list of declarations at most.
///
/// # Errors
///
/// `Syntax` where a file that spells none goes wrong, and `Limit` where it only passes a limit there: a type is at most 200 high, at most 400
/// brackets and words that an `end` closes are open at a place, and an integer has 64 bits. Both tell the byte at which the longest front of
/// the terminals ends with which such a file begins, 0 where it has none. `NoMemory` where there is none for the declarations.
pub fn read_file(
    alloc: Global,
    file: u32,
    terminals: Terminals,
    stop: Option<Token>,
) -> Result<Many<Decl>, Refused>
    ensures answer { Answers file (terminals.entry ++ option_to_list stop) result }
    ensures once { (ds es : PlainDecls) → IsWritten file ds (terminals.entry ++ option_to_list stop) → IsWritten file es (terminals.entry ++ option_to_list stop) → ds ≡ es }
{
    let start = Reading::new(alloc)?;
    read_from(alloc, file, start, terminals, stop)
}
