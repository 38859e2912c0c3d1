//! A list of statements: the body of a method, or the main part of a text.

ghost use Rattle.std.specs.Prelude.{◌≡◌, ◌↔◌, [], IfOk, IsTrue};
ghost use Rattle.ruby_reader.specs.ListMachine as machine;

use crate::expression::{ExpressionReader, Outcome, operand_of};
use crate::frames::Target;
use crate::progress::Turn;
use crate::tall::{LIMIT, Tall};
use crate::tree::{Assignment, Statement};
use plain_data::{Many, NoMemory, Word};
use ruby_tokens::{Kind, Token};
use std::alloc::Global;

/// Where a list was read up to.
#[derive(Drop)]
pub enum ListPlace {
    /// In front of a statement or the list's end.
    Between(Turn),
    /// Behind a name that begins a statement.
    Named(Word),
    /// In a statement's expression, which is assigned to the local, if there is one.
    Reading(Option<Word>, ExpressionReader),
}

/// A list that is being read, with the statements that were read so far.
#[derive(Drop)]
pub struct ListReader {
    pub statements: Many<Statement>,
    pub place: ListPlace,
}

fn between(statements: Many<Statement>, turn: Turn) -> Option<ListReader>
    ensures { result ≡ Some (machine.at statements (ListPlace.Between turn)) }
{
    Some(ListReader {
        statements,
        place: ListPlace::Between(turn),
    })
}

fn reading(
    statements: Many<Statement>,
    goal: Option<Word>,
    reader: ExpressionReader,
) -> Option<ListReader>
    ensures { result ≡ Some (machine.reading statements goal reader) }
{
    Some(ListReader {
        statements,
        place: ListPlace::Reading(goal, reader),
    })
}

/// The statement that an expression makes, or none where it would be too high.
fn statement_of(goal: Option<Word>, value: Tall) -> Option<Statement>
    ensures { result ≡ machine.low_statement goal value }
{
    match goal {
        None => Some(Statement::Expression(value.into_expression())),
        Some(name) => {
            if value.height() < LIMIT {
                Some(Statement::Assignment(Assignment {
                    name,
                    value: value.into_expression(),
                }))
            } else {
                None
            }
        }
    }
}

/// The statements with one more, or none where it would be too high.
fn with_statement(
    statements: Many<Statement>,
    goal: Option<Word>,
    value: Tall,
) -> Result<Option<Many<Statement>>, NoMemory>
    ensures { IfOk result (λ o. o ≡ machine.with_low statements (machine.low_statement goal value)) }
{
    let mut statements = statements;
    match statement_of(goal, value) {
        None => Ok(None),
        Some(statement) => {
            statements.push(statement)?;
            Ok(Some(statements))
        }
    }
}

fn begin_statement(
    alloc: Global,
    statements: Many<Statement>,
    kind: &Kind,
) -> Result<Option<ListReader>, NoMemory>
    ensures { IfOk result (λ o. o ≡ machine.begin_statement statements kind.now) }
{
    match kind {
        Kind::Name(name) => Ok(Some(ListReader {
            statements,
            place: ListPlace::Named(name.clone()?),
        })),
        _ => match operand_of(kind)? {
            Some(operand) => Ok(reading(
                statements,
                None,
                ExpressionReader::behind(alloc, operand),
            )),
            None => Ok(None),
        },
    }
}

fn between_statements(
    alloc: Global,
    statements: Many<Statement>,
    turn: Turn,
    kind: &Kind,
) -> Result<Option<ListReader>, NoMemory>
    ensures { IfOk result (λ o. o ≡ machine.between_statements statements turn kind.now) }
{
    match kind {
        Kind::Newline | Kind::Semicolon => Ok(between(statements, Turn::Free)),
        _ => match turn {
            Turn::Free => begin_statement(alloc, statements, kind),
            Turn::Taken => Ok(None),
        },
    }
}

fn behind_statement(
    alloc: Global,
    statements: Many<Statement>,
    goal: Option<Word>,
    value: Tall,
    turn: Turn,
    kind: &Kind,
) -> Result<Option<ListReader>, NoMemory>
    ensures { IfOk result (λ o. o ≡ machine.behind_low (machine.with_low statements (machine.low_statement goal value)) turn kind.now) }
{
    match with_statement(statements, goal, value)? {
        None => Ok(None),
        Some(statements) => between_statements(alloc, statements, turn, kind),
    }
}

fn in_expression(
    alloc: Global,
    statements: Many<Statement>,
    goal: Option<Word>,
    reader: ExpressionReader,
    token: &Token,
) -> Result<Option<ListReader>, NoMemory>
    ensures { IfOk result (λ o. o ≡ machine.in_expression statements goal reader token.now) }
{
    match reader.next(alloc, token)? {
        None => Ok(None),
        Some(Outcome::Reading(reader)) => Ok(reading(statements, goal, reader)),
        Some(Outcome::Ended(value, turn)) => {
            behind_statement(alloc, statements, goal, value, turn, &token.kind)
        }
    }
}

fn after_name(
    alloc: Global,
    statements: Many<Statement>,
    name: Word,
    token: &Token,
) -> Result<Option<ListReader>, NoMemory>
    ensures { IfOk result (λ o. o ≡ machine.after_name statements name token.now) }
{
    match &token.kind {
        Kind::Equals => Ok(reading(statements, Some(name), ExpressionReader::new(alloc))),
        _ => {
            let operand = Target::Value(Tall::local(name));
            in_expression(
                alloc,
                statements,
                None,
                ExpressionReader::behind(alloc, operand),
                token,
            )
        }
    }
}

impl ListReader {
    /// Where a list begins.
    pub fn new(alloc: Global, turn: Turn) -> ListReader
        ensures { result ≡ machine.start turn }
    {
        ListReader {
            statements: Many::new(alloc),
            place: ListPlace::Between(turn),
        }
    }

    /// Takes the next token, if the list may go on with it.
    pub fn next(self, alloc: Global, token: &Token) -> Result<Option<ListReader>, NoMemory>
        ensures { IfOk result (λ o. o ≡ machine.list_next self token.now) }
    {
        let ListReader { statements, place } = self;
        match place {
            ListPlace::Between(turn) => between_statements(alloc, statements, turn, &token.kind),
            ListPlace::Named(name) => after_name(alloc, statements, name, token),
            ListPlace::Reading(goal, reader) => {
                in_expression(alloc, statements, goal, reader, token)
            }
        }
    }

    /// The statements, if the list may end here.
    pub fn finish(self, alloc: Global) -> Result<Option<Many<Statement>>, NoMemory>
        ensures { IfOk result (λ o. o ≡ machine.list_final self) }
    {
        let ListReader { statements, place } = self;
        match place {
            ListPlace::Between(_) => Ok(Some(statements)),
            ListPlace::Named(name) => with_statement(statements, None, Tall::local(name)),
            ListPlace::Reading(goal, reader) => match reader.finish(alloc)? {
                None => Ok(None),
                Some(value) => with_statement(statements, goal, value),
            },
        }
    }
}
