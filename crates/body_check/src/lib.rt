//! Ruby programs, checked against the signature of their classes.
#![tactic(auto)]

mod bodies;
mod calls;
mod expressions;
mod index;
mod matching;
mod named;
mod table;
mod ty;
mod values;

pub use bodies::check;
pub use table::{ClassMethods, MethodEntry, classes_of};
pub use ty::ValueType;
