//! A method, from its `def` to its `end`.

ghost use Rattle.std.specs.Prelude.{◌≡◌, IfOk};
ghost use Rattle.ruby_reader.specs.MethodMachine as machine;

use crate::list::ListReader;
use crate::parameters::ParametersReader;
use crate::progress::{Progress, Turn};
use crate::tree::Definition;
use plain_data::{Many, NoMemory, Word};
use ruby_tokens::{Kind, Token};
use std::alloc::Global;

/// A method's name, and the first byte of its `def`.
#[derive(Debug, Drop)]
pub struct Head {
    pub name: Word,
    pub start: u32,
}

/// A method that is being read.
#[derive(Drop)]
pub enum MethodReader {
    /// Behind the `def`, which begins at this byte.
    Def(u32),
    /// Behind the name.
    Named(Head),
    Parameters(Head, ParametersReader),
    /// Behind the parameters.
    Body(Head, Many<Word>, ListReader),
}

fn after_def(
    start: u32,
    kind: &Kind,
) -> Result<Option<Progress<MethodReader, Definition>>, NoMemory>
    ensures { IfOk result (λ o. o ≡ machine.after_def start kind.now) }
{
    match kind {
        Kind::Name(name) => Ok(Some(Progress::Reading(MethodReader::Named(Head {
            name: name.clone()?,
            start,
        })))),
        _ => Ok(None),
    }
}

fn after_name(
    alloc: Global,
    head: Head,
    token: &Token,
) -> Result<Option<Progress<MethodReader, Definition>>, NoMemory>
    ensures { IfOk result (λ o. o ≡ machine.after_name head token.now) }
{
    match &token.kind {
        Kind::Open => Ok(Some(Progress::Reading(MethodReader::Parameters(
            head,
            ParametersReader::new(alloc),
        )))),
        _ => in_body(
            alloc,
            head,
            Many::new(alloc),
            ListReader::new(alloc, Turn::Taken),
            token,
        ),
    }
}

fn in_parameters(
    alloc: Global,
    head: Head,
    parameters: ParametersReader,
    token: &Token,
) -> Result<Option<Progress<MethodReader, Definition>>, NoMemory>
    ensures { IfOk result (λ o. o ≡ machine.in_parameters head parameters token.now) }
{
    match parameters.next(token)? {
        None => Ok(None),
        Some(Progress::Reading(parameters)) => Ok(Some(Progress::Reading(MethodReader::Parameters(
            head, parameters,
        )))),
        Some(Progress::Read(names)) => Ok(Some(Progress::Reading(MethodReader::Body(
            head,
            names,
            ListReader::new(alloc, Turn::Free),
        )))),
    }
}

fn end_body(
    alloc: Global,
    head: Head,
    parameters: Many<Word>,
    body: ListReader,
) -> Result<Option<Progress<MethodReader, Definition>>, NoMemory>
    ensures { IfOk result (λ o. o ≡ machine.end_body head parameters body) }
{
    match body.finish(alloc)? {
        None => Ok(None),
        Some(body) => {
            let Head { name, start } = head;
            Ok(Some(Progress::Read(Definition {
                name,
                start,
                parameters,
                body,
            })))
        }
    }
}

fn in_body(
    alloc: Global,
    head: Head,
    parameters: Many<Word>,
    body: ListReader,
    token: &Token,
) -> Result<Option<Progress<MethodReader, Definition>>, NoMemory>
    ensures { IfOk result (λ o. o ≡ machine.in_body head parameters body token.now) }
{
    match &token.kind {
        Kind::End => end_body(alloc, head, parameters, body),
        _ => match body.next(alloc, token)? {
            None => Ok(None),
            Some(body) => Ok(Some(Progress::Reading(MethodReader::Body(head, parameters, body)))),
        },
    }
}

impl MethodReader {
    /// Takes the next token, if the method may go on with it.
    pub fn next(
        self,
        alloc: Global,
        token: &Token,
    ) -> Result<Option<Progress<MethodReader, Definition>>, NoMemory>
        ensures { IfOk result (λ o. o ≡ machine.method_next self token.now) }
    {
        match self {
            MethodReader::Def(start) => after_def(start, &token.kind),
            MethodReader::Named(head) => after_name(alloc, head, token),
            MethodReader::Parameters(head, parameters) => {
                in_parameters(alloc, head, parameters, token)
            }
            MethodReader::Body(head, parameters, body) => in_body(
                alloc, head, parameters, body, token,
            ),
        }
    }
}
