//! The signature files of the first profile: classes of plain methods.
#![tactic(auto)]

mod classes;
mod parentheses;
mod shape;
#[cfg(test)]
mod tests;
mod well_named;

pub use classes::read_classes;
