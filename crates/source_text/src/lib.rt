//! Source text: its characters, the characters of names, and where a byte stands in lines and columns.
#![tactic(auto)]

mod lines;
mod text;

pub use lines::{Cursor, move_to};
pub use text::{characters, is_blank, is_name_character, starts_word};
