//! The words of a command behind its first two: the files that they name.
#![tactic(auto)]

mod files;
mod reader;
#[cfg(test)]
mod tests;

pub use files::{MOST_FILES, are_files};
pub use reader::read_files;
