//! The parameters of a method, up to the parenthesis that closes them.

ghost use Rattle.std.specs.Prelude.{◌≡◌, IfOk};
ghost use Rattle.ruby_reader.specs.ParametersMachine as machine;

use crate::progress::Progress;
use plain_data::{Many, NoMemory, Word};
use ruby_tokens::{Kind, Token};
use std::alloc::Global;

/// Where the parameters were read up to.
#[derive(Debug, Drop)]
pub enum ParameterPlace {
    /// Behind the parenthesis that opens them.
    Opened,
    /// Directly behind a parameter.
    Named,
    /// Behind the last parameter and a newline.
    Closing,
    /// Behind a comma.
    Comma,
}

/// Parameters that are being read, with those that were read so far.
#[derive(Debug, Drop)]
pub struct ParametersReader {
    pub names: Many<Word>,
    pub place: ParameterPlace,
}

/// In front of a parameter, at a place where newlines are skipped.
fn before_parameter(
    names: Many<Word>,
    place: ParameterPlace,
    kind: &Kind,
) -> Result<Option<Progress<ParametersReader, Many<Word>>>, NoMemory>
    ensures { IfOk result (λ o. o ≡ machine.before_parameter names place kind.now) }
{
    match kind {
        Kind::Name(name) => {
            let mut names = names;
            names.push(name.clone()?)?;
            Ok(Some(Progress::Reading(ParametersReader {
                names,
                place: ParameterPlace::Named,
            })))
        }
        Kind::Newline | Kind::TypeNote => {
            Ok(Some(Progress::Reading(ParametersReader { names, place })))
        }
        _ => Ok(None),
    }
}

fn after_open(
    names: Many<Word>,
    kind: &Kind,
) -> Result<Option<Progress<ParametersReader, Many<Word>>>, NoMemory>
    ensures { IfOk result (λ o. o ≡ machine.after_open names kind.now) }
{
    match kind {
        Kind::Close => Ok(Some(Progress::Read(names))),
        _ => before_parameter(names, ParameterPlace::Opened, kind),
    }
}

fn before_close(names: Many<Word>, kind: &Kind) -> Option<Progress<ParametersReader, Many<Word>>>
    ensures { result ≡ machine.before_close names kind.now }
{
    match kind {
        Kind::Close => Some(Progress::Read(names)),
        Kind::Newline | Kind::TypeNote => Some(Progress::Reading(ParametersReader {
            names,
            place: ParameterPlace::Closing,
        })),
        _ => None,
    }
}

fn after_parameter(names: Many<Word>, kind: &Kind) -> Option<Progress<ParametersReader, Many<Word>>>
    ensures { result ≡ machine.after_parameter names kind.now }
{
    match kind {
        Kind::Comma => Some(Progress::Reading(ParametersReader {
            names,
            place: ParameterPlace::Comma,
        })),
        _ => before_close(names, kind),
    }
}

impl ParametersReader {
    /// Behind the parenthesis that opens the parameters.
    pub fn new(alloc: Global) -> ParametersReader
        ensures { result ≡ machine.start }
    {
        ParametersReader {
            names: Many::new(alloc),
            place: ParameterPlace::Opened,
        }
    }

    /// Takes the next token, if the parameters may go on with it.
    pub fn next(
        self,
        token: &Token,
    ) -> Result<Option<Progress<ParametersReader, Many<Word>>>, NoMemory>
        ensures { IfOk result (λ o. o ≡ machine.parameters_next self token.now) }
    {
        let ParametersReader { names, place } = self;
        match place {
            ParameterPlace::Opened => after_open(names, &token.kind),
            ParameterPlace::Named => Ok(after_parameter(names, &token.kind)),
            ParameterPlace::Closing => Ok(before_close(names, &token.kind)),
            ParameterPlace::Comma => before_parameter(names, ParameterPlace::Comma, &token.kind),
        }
    }
}
