//! The model of signatures: places, diagnostics, types and declarations, as plain data.
#![tactic(auto)]

pub mod build;
pub mod copy;
pub mod decl;
pub mod diag;
pub mod height;
mod named;
pub mod place;
#[cfg(test)]
mod tests;
pub mod ty;

pub use plain_data::{Boxed, Many, NoMemory, Word};
