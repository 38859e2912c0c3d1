//! Diagnostics in print: their names and texts, the order of a list, its lines and its summary.
#![tactic(auto)]

mod lines;
mod order;
mod texts;

pub use lines::{Source, add_lines, add_summary, line_of, summary};
pub use order::ordered;
pub use texts::{id_text, middle_text, opening_text};

#[cfg(test)]
mod tests;
