//! Ruby text, read: the classes that it opens with their methods, and the statements behind them.
#![tactic(auto)]

mod class;
mod expression;
mod file;
mod frames;
mod list;
mod method;
mod named;
mod open;
mod parameters;
mod progress;
mod scopes;
mod tall;
#[cfg(test)]
mod tests;
mod text;
mod tree;

pub use text::read;
pub use tree::{Assignment, Definition, Expression, Literal, Opening, Program, Statement};
