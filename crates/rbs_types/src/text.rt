//! The type of a text.

ghost use Rattle.std.specs.Prelude.{◌≡◌, ◌++◌};
ghost use Rattle.std.specs.Option.{option_to_list};
ghost use Rattle.sig_model.specs.PlainTy.{PlainTy};
ghost use Rattle.rbs_types.specs.Answers.{Answers};
ghost use Rattle.rbs_types.specs.Limits.{IsWritten};
ghost use Rattle.rbs_types.specs.Machine as machine;

use crate::reading::{Reading, Refused};
use rbs_terminals::{Terminals, Token};
use sig_model::ty::Ty;
use std::alloc::Global;

/// The type that these terminals spell, with `stop` behind them, where nothing was read yet.
fn read_from(
    alloc: Global,
    start: Reading,
    terminals: Terminals,
    stop: Option<Token>,
) -> Result<Ty, Refused>
    requires state { start.state ≡ machine.start }
    requires end { start.end ≡ 0 }
    ensures { Answers (terminals.entry ++ option_to_list stop) result }
{
    let mut terminals = terminals;
    let mut reading = start;
    while let Some(token) = terminals.next()? {
        reading = reading.take(alloc, token)?;
    }
    if let Some(token) = stop {
        reading = reading.take(alloc, token)?;
    }
    reading.finish(alloc)
}

/// The type that a text's terminals spell, with `stop` behind them: the terminal at which the text stops being tokens,
/// `Kind::Stray` or `Kind::PastInteger`, where it does. Tokens spell one type at most.
///
/// # Errors
///
/// `Syntax` where a text that is none goes wrong, and `Limit` where it only passes a limit there: a type is at most 200 high, at most 400
/// brackets are open at a place, and an integer has 64 bits. Both tell the byte at which the longest front of the terminals ends with which
/// a text begins, 0 where it has none. `NoMemory` where there is none for the type.
pub fn read_type(alloc: Global, terminals: Terminals, stop: Option<Token>) -> Result<Ty, Refused>
    ensures answer { Answers (terminals.entry ++ option_to_list stop) result }
    ensures once { (t u : PlainTy) → IsWritten t (terminals.entry ++ option_to_list stop) → IsWritten u (terminals.entry ++ option_to_list stop) → t ≡ u }
{
    let start = Reading::new(alloc)?;
    read_from(alloc, start, terminals, stop)
}
