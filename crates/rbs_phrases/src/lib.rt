//! Phrases of types, read whole.
#![tactic(auto)]

mod cursor;
mod slots;
mod type_names;
mod types;
mod unread;

pub use cursor::Cursor;
pub use slots::{is_word, word_of};
pub use type_names::{Use, name_from, name_on, on_line_next, scope_next};
pub use types::{function_on, type_on, types_on};
pub use unread::Unread;
