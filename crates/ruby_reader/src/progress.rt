//! What the readers of phrases have in common.

/// Whether an item of a list may begin at a place, or only behind a newline or a `;`.
#[derive(Clone, Copy, Debug, Drop)]
pub enum Turn {
    Free,
    Taken,
}

/// What a token makes of a reader: one that wants more, or what it read.
#[derive(Debug, Drop)]
pub enum Progress<R, T> {
    Reading(R),
    Read(T),
}
