//! Signature text, read: the declarations that a file spells, or the type that a text does.
#![tactic(auto)]

mod files;
mod refused;
mod stops;
#[cfg(test)]
mod tests;
mod text;

pub use refused::ParseRefused;
pub use text::{parse, parse_type};
