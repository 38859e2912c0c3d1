//! The declarations of a file, read phrase by phrase.
#![tactic(auto)]

mod aliases;
mod ends;
mod file;
mod headings;
mod keywords;
mod members;
mod method_names;
mod methods;
mod notes;
mod overloads;
mod params;
mod parts;
mod types;

pub use file::file_on;
