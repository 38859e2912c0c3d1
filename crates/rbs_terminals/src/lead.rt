//! The first terminal of a phrase.

use crate::token::Kind;
use plain_data::{Many, Word};

/// The first terminal of a phrase: what it is, where it stands, and the comments that it carries.
#[derive(Debug, Drop)]
pub struct Lead {
    pub kind: Kind,
    pub start: u32,
    pub end: u32,
    pub comments: Many<Word>,
}
