/// A span of a file, in byte offsets: `start` is its first byte, and `end` is one past its last.
#[derive(Clone, Copy, Debug, PartialEq, Eq)]
pub struct Place {
    /// The file's position in the project, from 0.
    pub file: u32,
    pub start: u32,
    pub end: u32,
}
