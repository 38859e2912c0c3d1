//! What `rbs print` answers: the printed form of its files, or the faults of those that are refused.
#![tactic(auto)]

mod outcome;
mod reading;
#[cfg(test)]
mod tests;

pub use outcome::print_files;
