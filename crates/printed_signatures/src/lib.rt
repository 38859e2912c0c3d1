//! The printed form of signatures, which is read back equal.
#![tactic(auto)]

mod printing;

pub use printing::print;
