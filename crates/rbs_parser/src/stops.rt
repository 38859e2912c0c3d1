//! The terminal at which a text stops being tokens.

ghost use Rattle.std.specs.Prelude.{◌≡◌};
ghost use Rattle.std.specs.Option.{option_to_list};
ghost use Rattle.rbs_lexer.specs.Division.{end_of};
ghost use Rattle.rbs_parser.specs.Texts.{end_of_last, stop_at, stop_behind};

use plain_data::Many;
use rbs_lexer::{Ending, SigToken};
use rbs_terminals::{Gap, Kind, Spot, Token};
use std::alloc::Global;

/// Where the last of these tokens ends, 0 where there is none.
fn end_of_last(tokens: &[SigToken]) -> u32
    ensures { result ≡ end_of_last tokens.now }
{
    match tokens.last() {
        None => 0,
        Some(token) => token.place.end,
    }
}

/// The terminal of this kind behind these tokens.
fn stop_at(alloc: Global, tokens: &[SigToken], kind: Kind, at: u32) -> Token
    ensures { result ≡ stop_at tokens.now kind at }
{
    Token {
        kind,
        spot: Spot {
            before: end_of_last(tokens),
            gap: Gap::Line,
            start: at,
            end: at,
            comments: Many::new(alloc),
        },
    }
}

/// The terminal behind these tokens at which a text stops being tokens, where it does. Takes no memory.
pub fn stop_behind(alloc: Global, tokens: &[SigToken], ending: Ending) -> Option<Token>
    ensures { option_to_list result ≡ stop_behind tokens.now (end_of ending) }
{
    match ending {
        Ending::Whole => None,
        Ending::Stray(at) => Some(stop_at(alloc, tokens, Kind::Stray, at)),
        Ending::PastInteger(at) => Some(stop_at(alloc, tokens, Kind::PastInteger, at)),
    }
}
