//! A class, from its `class` to its `end`.

ghost use Rattle.std.specs.Prelude.{◌≡◌, IfOk};
ghost use Rattle.ruby_reader.specs.ClassMachine as machine;

use crate::method::MethodReader;
use crate::progress::{Progress, Turn};
use crate::tree::Opening;
use plain_data::{Many, NoMemory};
use ruby_tokens::{Kind, Token};
use std::alloc::Global;

/// A class that is being read, with the methods that were read so far.
#[derive(Drop)]
pub enum ClassReader {
    /// Behind the `class`, which begins at this byte.
    Class(u32),
    /// In front of a method or the `end`.
    Between(Opening, Turn),
    Method(Opening, MethodReader),
}

fn after_class(
    alloc: Global,
    start: u32,
    kind: &Kind,
) -> Result<Option<Progress<ClassReader, Opening>>, NoMemory>
    ensures { IfOk result (λ o. o ≡ machine.after_class start kind.now) }
{
    match kind {
        Kind::Upper(name) => {
            let opening = Opening {
                name: name.clone()?,
                start,
                definitions: Many::new(alloc),
            };
            Ok(Some(Progress::Reading(ClassReader::Between(opening, Turn::Taken))))
        }
        _ => Ok(None),
    }
}

fn between_methods(
    opening: Opening,
    turn: Turn,
    token: &Token,
) -> Option<Progress<ClassReader, Opening>>
    ensures { result ≡ machine.between_methods opening turn token.now.kind token.now.start }
{
    match &token.kind {
        Kind::End => Some(Progress::Read(opening)),
        Kind::Newline | Kind::Semicolon => Some(Progress::Reading(ClassReader::Between(
            opening,
            Turn::Free,
        ))),
        Kind::TypeNote => Some(Progress::Reading(ClassReader::Between(opening, turn))),
        Kind::Def => match turn {
            Turn::Free => Some(Progress::Reading(ClassReader::Method(
                opening,
                MethodReader::Def(token.start),
            ))),
            Turn::Taken => None,
        },
        _ => None,
    }
}

fn in_method(
    alloc: Global,
    opening: Opening,
    method: MethodReader,
    token: &Token,
) -> Result<Option<Progress<ClassReader, Opening>>, NoMemory>
    ensures { IfOk result (λ o. o ≡ machine.in_method opening method token.now) }
{
    match method.next(alloc, token)? {
        None => Ok(None),
        Some(Progress::Reading(method)) => {
            Ok(Some(Progress::Reading(ClassReader::Method(opening, method))))
        }
        Some(Progress::Read(definition)) => {
            let Opening {
                name,
                start,
                mut definitions,
            } = opening;
            definitions.push(definition)?;
            Ok(Some(Progress::Reading(ClassReader::Between(
                Opening {
                    name,
                    start,
                    definitions,
                },
                Turn::Taken,
            ))))
        }
    }
}

impl ClassReader {
    /// Takes the next token, if the class may go on with it.
    pub fn next(
        self,
        alloc: Global,
        token: &Token,
    ) -> Result<Option<Progress<ClassReader, Opening>>, NoMemory>
        ensures { IfOk result (λ o. o ≡ machine.class_next self token.now) }
    {
        match self {
            ClassReader::Class(start) => after_class(alloc, start, &token.kind),
            ClassReader::Between(opening, turn) => Ok(between_methods(opening, turn, token)),
            ClassReader::Method(opening, method) => in_method(alloc, opening, method, token),
        }
    }
}
