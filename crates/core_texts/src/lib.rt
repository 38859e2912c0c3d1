//! The signature of the core classes: its text, and the declarations that it spells.
#![tactic(auto)]

mod collections;
mod core_rbs;
mod declarations;
mod errors;
mod members;
mod objects;
mod overloads;
mod places;
mod shapes;
mod signature;
mod types;
mod values;

pub use core_rbs::CORE_RBS;
pub use signature::core_signature;
