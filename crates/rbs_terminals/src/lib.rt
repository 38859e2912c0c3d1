//! The terminal symbols of signature text.
#![tactic(auto)]

mod before;
mod keywords;
mod kinds;
mod lead;
mod marks;
mod sorts;
mod terminals;
#[cfg(test)]
mod tests;
mod text;
mod token;
mod values;

pub use keywords::{base_of, keyword_of, keyword_text};
pub use kinds::{is_mark, lower_of};
pub use lead::Lead;
pub use sorts::Sort;
pub use terminals::Terminals;
pub use text::all_terminals;
pub use token::{Gap, Keyword, Kind, Mark, Spot, Token};
