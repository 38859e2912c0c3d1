//! The words that the first profile keeps from names, and the classes whose values it reads.
#![tactic(auto)]

#[cfg(test)]
mod tests;
mod words;

pub use words::{
    begins_upper, is_callable, is_core_class, is_core_name, is_interface_name, is_keyword,
    is_reserved, is_value_class,
};
