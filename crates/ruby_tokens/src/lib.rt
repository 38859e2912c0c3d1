//! The tokens of Ruby text.
#![tactic(auto)]

mod appended;
mod before;
mod begin;
mod lexer;
mod listed;
mod mode;
mod notes;
mod numbers;
mod refused;
mod starts;
mod strings;
mod symbols;
#[cfg(test)]
mod tests;
mod text;
mod token;
mod words;

pub use text::tokens;
pub use token::{Kind, Token};
