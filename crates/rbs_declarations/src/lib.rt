//! Declarations of signatures, read one token at a time.
#![tactic(auto)]

mod aliases;
mod around;
mod begins;
pub mod built;
mod headings;
mod methods;
pub mod operators;
mod other_members;
mod params;
pub mod plain;
mod reading;
mod refused;
mod sites;
mod state;
mod step;
mod text;
mod texts;
mod type_names;
mod typed;
mod wholes;
mod within;
pub mod words;

pub use state::State;
pub use text::read_file;
