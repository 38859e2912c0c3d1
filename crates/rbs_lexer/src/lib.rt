//! The tokens of signature text.
#![tactic(auto)]

mod division;
mod found;
mod integers;
mod pieces;
mod refused;
#[cfg(test)]
mod tests;
mod text;
mod token;
mod words;

pub use division::{Divided, Ending, divide};
pub use refused::LexRefused;
pub use text::tokens;
pub use token::{SigToken, TokenKind};
