//! The classes of a text, and the statements behind them.

ghost use Rattle.std.specs.Prelude.{◌≡◌, IfOk};
ghost use Rattle.ruby_reader.specs.FileMachine as machine;
ghost use Rattle.ruby_reader.specs.Written.{Written};

use crate::class::ClassReader;
use crate::list::ListReader;
use crate::progress::{Progress, Turn};
use crate::tree::{Opening, Program};
use plain_data::{Many, NoMemory};
use ruby_tokens::{Kind, Token};
use std::alloc::Global;

/// Where a text was read up to.
#[derive(Drop)]
pub enum Place {
    /// In front of a class, the main part or the end of the text.
    Between(Turn),
    Class(ClassReader),
    /// Behind the first token of a statement.
    Main(ListReader),
}

/// A text that is being read, with the classes that were read so far.
#[derive(Drop)]
pub struct FileReader {
    pub openings: Many<Opening>,
    pub place: Place,
}

fn begin_class(openings: Many<Opening>, turn: Turn, start: u32) -> Option<FileReader>
    ensures { result ≡ machine.begin_class openings turn start }
{
    match turn {
        Turn::Free => Some(FileReader {
            openings,
            place: Place::Class(ClassReader::Class(start)),
        }),
        Turn::Taken => None,
    }
}

fn between_classes(
    alloc: Global,
    openings: Many<Opening>,
    turn: Turn,
    token: &Token,
) -> Result<Option<FileReader>, NoMemory>
    ensures { IfOk result (λ o. o ≡ machine.between_classes openings turn token.now) }
{
    match &token.kind {
        Kind::Newline | Kind::Semicolon => Ok(Some(FileReader {
            openings,
            place: Place::Between(Turn::Free),
        })),
        Kind::Class => Ok(begin_class(openings, turn, token.start)),
        _ => in_main(alloc, openings, ListReader::new(alloc, turn), token),
    }
}

fn in_class(
    alloc: Global,
    openings: Many<Opening>,
    class: ClassReader,
    token: &Token,
) -> Result<Option<FileReader>, NoMemory>
    ensures { IfOk result (λ o. o ≡ machine.in_class openings class token.now) }
{
    match class.next(alloc, token)? {
        None => Ok(None),
        Some(Progress::Reading(class)) => Ok(Some(FileReader {
            openings,
            place: Place::Class(class),
        })),
        Some(Progress::Read(opening)) => {
            let mut openings = openings;
            openings.push(opening)?;
            Ok(Some(FileReader {
                openings,
                place: Place::Between(Turn::Taken),
            }))
        }
    }
}

fn in_main(
    alloc: Global,
    openings: Many<Opening>,
    statements: ListReader,
    token: &Token,
) -> Result<Option<FileReader>, NoMemory>
    ensures { IfOk result (λ o. o ≡ machine.in_main openings statements token.now) }
{
    match statements.next(alloc, token)? {
        None => Ok(None),
        Some(statements) => Ok(Some(FileReader {
            openings,
            place: Place::Main(statements),
        })),
    }
}

impl FileReader {
    /// In front of a text.
    pub fn new(alloc: Global) -> FileReader
        ensures { result ≡ machine.start }
    {
        FileReader {
            openings: Many::new(alloc),
            place: Place::Between(Turn::Free),
        }
    }

    /// Takes the next token, if the text may go on with it.
    pub fn next(self, alloc: Global, token: &Token) -> Result<Option<FileReader>, NoMemory>
        ensures { IfOk result (λ o. o ≡ machine.next self token.now) }
    {
        let FileReader { openings, place } = self;
        match place {
            Place::Between(turn) => between_classes(alloc, openings, turn, token),
            Place::Class(class) => in_class(alloc, openings, class, token),
            Place::Main(statements) => in_main(alloc, openings, statements, token),
        }
    }

    /// The program, if the text may end here.
    pub fn finish(self, alloc: Global) -> Result<Option<Program>, NoMemory>
        ensures { IfOk result (λ o. o ≡ machine.final self) }
    {
        let FileReader { openings, place } = self;
        match place {
            Place::Between(_) => Ok(Some(Program {
                openings,
                statements: Many::new(alloc),
            })),
            Place::Class(_) => Ok(None),
            Place::Main(statements) => match statements.finish(alloc)? {
                None => Ok(None),
                Some(statements) => Ok(Some(Program {
                    openings,
                    statements,
                })),
            },
        }
    }
}

/// The program that all of the tokens write, or none where they are no text of the profile.
pub(crate) fn program_of(alloc: Global, tokens: &[Token]) -> Result<Option<Program>, NoMemory>
    ensures { IfOk result (Written tokens.now) }
{
    let mut reader = FileReader::new(alloc);
    for token in tokens {
        match reader.next(alloc, token)? {
            Some(next) => reader = next,
            None => return Ok(None),
        }
    }
    reader.finish(alloc)
}
