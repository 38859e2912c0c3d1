//! The printed form of signatures.
#![tactic(auto)]

mod declarations;
mod members;
mod texts;
mod types;

pub use declarations::print;
