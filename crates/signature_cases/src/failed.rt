use plain_data::NoMemory;
use run_base::ReadRefused;
use std::alloc::AllocError;
use std::io;

/// Why the cases could not be run.
#[derive(Clone, Copy, Debug, PartialEq, Eq)]
pub enum Failed {
    /// The words are no pairs of a form and a table's name.
    Words,
    /// A table could not be read, or is no text.
    Table,
    /// A line of a table, counted from 1, is no case.
    Line(u32),
    /// The outcome could not be printed.
    Print,
    NoMemory,
}

impl From<AllocError> for Failed {
    fn from(_: AllocError) -> Self {
        Failed::NoMemory
    }
}

impl From<NoMemory> for Failed {
    fn from(_: NoMemory) -> Self {
        Failed::NoMemory
    }
}

impl From<ReadRefused> for Failed {
    fn from(refused: ReadRefused) -> Self {
        match refused {
            ReadRefused::NoMemory => Failed::NoMemory,
            _ => Failed::Table,
        }
    }
}

impl From<io::Error> for Failed {
    fn from(_: io::Error) -> Self {
        Failed::Print
    }
}
