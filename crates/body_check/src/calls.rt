//! What a call gives, or why it is refused.

ghost use Rattle.std.specs.Prelude.{◌≡◌, ◌∷◌, [], Some, codes, IfOk};
ghost use Rattle.body_check.specs.Calls.{constructor_parameters};
ghost use Rattle.body_check.specs.Matching.{IsIndex};
ghost use Rattle.body_check.specs.Walk as walk;

use crate::index::{Index, method_of_class, method_on};
use crate::table::{ClassMethods, MethodEntry};
use crate::ty::{ValueType, fits, type_text};
use plain_data::{Many, NoMemory, Word};
use sig_model::diag::DiagId;
use std::alloc::Global;

/// Why a call is refused, with the words of its diagnostic.
#[derive(Debug, Drop)]
pub(crate) struct Refusal {
    pub id: DiagId,
    pub args: Many<Word>,
}

/// What becomes of a call: it gives a value of a type, or it is refused, or one of its parts has no type.
#[derive(Debug, Drop)]
pub(crate) enum Outcome {
    Gives(ValueType),
    Refused(Refusal),
    Unknown,
}

/// A refusal with one word.
fn of_name(alloc: Global, id: DiagId, name: &Word) -> Result<Refusal, NoMemory>
    ensures { IfOk result (λ r. r ≡ walk.refusal id (name.now ∷ [])) }
{
    let mut args = Many::new(alloc);
    args.push(name.clone()?)?;
    Ok(Refusal { id, args })
}

/// A refusal with two words.
fn of_two(alloc: Global, id: DiagId, first: Word, second: Word) -> Result<Refusal, NoMemory>
    ensures { IfOk result (λ r. r ≡ walk.refusal id (first ∷ second ∷ [])) }
{
    let mut args = Many::new(alloc);
    args.push(first)?;
    args.push(second)?;
    Ok(Refusal { id, args })
}

/// The refusal of the first argument that isn't below its parameter.
fn misfit_of(
    alloc: Global,
    given: &[ValueType],
    wanted: &[ValueType],
) -> Result<Option<Refusal>, NoMemory>
    ensures { IfOk result (λ r. r ≡ walk.misfit_of given.now wanted.now) }
{
    let mut wanted = wanted;
    for ty in given {
        let [parameter, rest @ ..] = wanted else {
            break;
        };
        if !fits(ty, parameter) {
            let id = DiagId::ArgumentTypeMismatch;
            let refusal = of_two(
                alloc,
                id,
                type_text(alloc, ty)?,
                type_text(alloc, parameter)?,
            )?;
            return Ok(Some(refusal));
        }
        wanted = rest;
    }
    Ok(None)
}

/// Why arguments of these types are refused, if they are.
fn refusal_of(
    alloc: Global,
    name: &Word,
    given: &[ValueType],
    wanted: &[ValueType],
) -> Result<Option<Refusal>, NoMemory>
    ensures { IfOk result (λ r. r ≡ walk.refusal_of name.now given.now wanted.now) }
{
    if given.len() < wanted.len() {
        return Ok(Some(of_name(alloc, DiagId::InsufficientPositionalArguments, name)?));
    }
    if wanted.len() < given.len() {
        return Ok(Some(of_name(alloc, DiagId::UnexpectedPositionalArgument, name)?));
    }
    misfit_of(alloc, given, wanted)
}

/// What a call of a method gives.
fn method_outcome(
    alloc: Global,
    name: &Word,
    ty: &ValueType,
    given: &[ValueType],
    method: &MethodEntry,
) -> Result<Outcome, NoMemory>
    ensures { IfOk result (λ o. o ≡ walk.method_outcome name.now ty.now given.now (Some method.now)) }
{
    match refusal_of(alloc, name, given, method.parameters.as_slice())? {
        Some(refusal) => Ok(Outcome::Refused(refusal)),
        None => Ok(Outcome::Gives(method.gives.copy()?)),
    }
}

/// What a call on a value of a type gives.
fn typed_outcome(
    alloc: Global,
    classes: &[ClassMethods],
    index: &Index,
    name: &Word,
    ty: &ValueType,
    given: &[ValueType],
) -> Result<Outcome, NoMemory>
    requires { IsIndex classes.now index.now }
    ensures { IfOk result (λ o. o ≡ walk.call_outcome classes.now name.now (Some ty.now) (Some given.now)) }
{
    match method_on(classes, index, ty, name) {
        Some(method) => method_outcome(alloc, name, ty, given, method),
        None => {
            let text = type_text(alloc, ty)?;
            let refusal = of_two(alloc, DiagId::NoMethod, text, name.clone()?)?;
            Ok(Outcome::Refused(refusal))
        }
    }
}

/// What a call gives, by the types of its receiver and its arguments.
pub(crate) fn call_outcome(
    alloc: Global,
    classes: &[ClassMethods],
    index: &Index,
    name: &Word,
    receiver: Option<ValueType>,
    given: Option<Many<ValueType>>,
) -> Result<Outcome, NoMemory>
    requires { IsIndex classes.now index.now }
    ensures { IfOk result (λ o. o ≡ walk.call_outcome classes.now name.now receiver given) }
{
    match (receiver, given) {
        (Some(ty), Some(given)) => {
            typed_outcome(alloc, classes, index, name, &ty, given.as_slice())
        }
        _ => Ok(Outcome::Unknown),
    }
}

/// Why a new object of a class refuses arguments of these types, if it does.
fn constructor_refusal(
    alloc: Global,
    classes: &[ClassMethods],
    index: &Index,
    class: &Word,
    given: &[ValueType],
) -> Result<Option<Refusal>, NoMemory>
    requires { IsIndex classes.now index.now }
    ensures { IfOk result (λ r. r ≡ walk.refusal_of (codes "new") given.now (constructor_parameters classes.now class.now)) }
{
    let name = Word::of(alloc, "new")?;
    match method_of_class(classes, index, class, &Word::of(alloc, "initialize")?) {
        Some(method) => refusal_of(alloc, &name, given, method.parameters.as_slice()),
        None => refusal_of(alloc, &name, given, &[]),
    }
}

/// What making a new object gives, by the types of its arguments.
pub(crate) fn new_outcome(
    alloc: Global,
    classes: &[ClassMethods],
    index: &Index,
    class: &Word,
    given: Option<Many<ValueType>>,
) -> Result<Outcome, NoMemory>
    requires { IsIndex classes.now index.now }
    ensures { IfOk result (λ o. o ≡ walk.new_outcome classes.now class.now given) }
{
    let Some(given) = given else {
        return Ok(Outcome::Unknown);
    };
    match constructor_refusal(alloc, classes, index, class, given.as_slice())? {
        Some(refusal) => Ok(Outcome::Refused(refusal)),
        None => Ok(Outcome::Gives(ValueType::Class(class.clone()?))),
    }
}
