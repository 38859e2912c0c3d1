//! The top call: a command line over files and sinks that are handed in.
#![tactic(auto)]

pub mod call;
pub mod in_memory;
mod lists;
mod plan;
#[cfg(test)]
mod tests;

pub use call::tool;
pub use call_outcomes::Status;
pub use in_memory::tool_in_memory;
