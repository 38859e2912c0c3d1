//! Where the parentheses of a text stand.

ghost use Rattle.std.specs.Prelude.{◌≡◌, false, IfOk};
ghost use Rattle.signature_profile.specs.Parentheses as parentheses;

use plain_data::NoMemory;
use rbs_terminals::{Kind, Mark, Terminals};

fn is_open(kind: &Kind) -> bool
    ensures { result ≡ parentheses.is_open kind.now }
{
    matches!(kind, Kind::Mark(Mark::Open))
}

fn is_colon(kind: &Kind) -> bool
    ensures { result ≡ parentheses.is_colon kind.now }
{
    matches!(kind, Kind::Mark(Mark::Colon))
}

/// Whether an opening parenthesis stands directly behind each colon of a text, and nowhere else.
pub fn opens_behind_colons(terminals: Terminals) -> Result<bool, NoMemory>
    ensures { IfOk result (λ good. good ≡ parentheses.opens_behind_colons false terminals.entry) }
{
    let mut terminals = terminals;
    let mut behind = false;
    while let Some(token) = terminals.next()? {
        if is_open(&token.kind) != behind {
            return Ok(false);
        }
        behind = is_colon(&token.kind);
    }
    Ok(!behind)
}
