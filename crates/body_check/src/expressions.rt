//! The types of expressions, and the faults in them.
#![tactic(auto, using(crate::proofs::Rules::plain_steps, crate::proofs::Joined::joined_more, crate::proofs::Joined::joined_none, crate::proofs::Joined::joined_all))]

ghost use Rattle.std.specs.Prelude.{◌≡◌, ◌++◌, IfOk, OnOk};
ghost use Rattle.ruby_reader.specs.PlainLaws.{plain_expression, plain_expressions};
ghost use Rattle.body_check.specs.Matching.{IsIndex};
ghost use Rattle.body_check.specs.Walk as walk;

use crate::calls::{Outcome, call_outcome, new_outcome};
use crate::index::Index;
use crate::table::ClassMethods;
use crate::ty::{ValueType, literal_type};
use indexmap::IndexMap;
use plain_data::{Many, NoMemory, Word};
use ruby_reader::Expression;
use sig_model::diag::Diag;
use sig_model::place::Place;
use std::alloc::Global;

/// The locals of a scope whose values have types, each with that type.
pub(crate) type Locals = IndexMap<Word, ValueType>;

/// What expressions are checked against, and the number of the file in which they stand.
#[derive(Clone, Copy)]
pub(crate) struct Checker<'a> {
    pub alloc: Global,
    pub file: u32,
    pub classes: &'a [ClassMethods],
    pub index: &'a Index,
}

/// The type that a call gives; a refusal is listed at the call's name.
fn given_by(
    file: u32,
    start: u32,
    end: u32,
    outcome: Outcome,
    list: &mut Many<Diag>,
) -> Result<Option<ValueType>, NoMemory>
    ensures given { IfOk result (λ ty. ty ≡ walk.given_by outcome) }
    ensures listed { OnOk result (list.new ≡ list.old ++ walk.faults_of_outcome file start end outcome) }
{
    match outcome {
        Outcome::Gives(ty) => Ok(Some(ty)),
        Outcome::Unknown => Ok(None),
        Outcome::Refused(refusal) => {
            list.push(Diag {
                place: Place { file, start, end },
                id: refusal.id,
                args: refusal.args,
            })?;
            Ok(None)
        }
    }
}

/// The types with one more at their end, if there are all.
fn with_last(
    types: Option<Many<ValueType>>,
    ty: Option<ValueType>,
) -> Result<Option<Many<ValueType>>, NoMemory>
    ensures { IfOk result (λ all. all ≡ walk.with_last types ty) }
{
    match (types, ty) {
        (Some(types), Some(ty)) => {
            let mut types = types;
            types.push(ty)?;
            Ok(Some(types))
        }
        _ => Ok(None),
    }
}

impl<'a> Checker<'a> {
    /// The type of an expression, if it has one; its faults are listed.
    #[cycle(check)]
    pub fn check(
        &self,
        locals: &Locals,
        expression: &Expression,
        list: &mut Many<Diag>,
    ) -> Result<Option<ValueType>, NoMemory>
        requires { IsIndex self.now.classes.now self.now.index.now }
        ensures given { IfOk result (λ ty. ty ≡ walk.type_of self.now.classes.now locals.now.entries (plain_expression expression.now)) }
        ensures listed { OnOk result (list.new ≡ list.old ++ walk.faults_of self.now.file self.now.classes.now locals.now.entries (plain_expression expression.now)) }
    {
        match expression {
            Expression::Literal(literal) => Ok(Some(literal_type(self.alloc, literal)?)),
            Expression::Local(name) => match locals.get(name) {
                Some(ty) => Ok(Some(ty.copy()?)),
                None => Ok(None),
            },
            Expression::Call {
                receiver,
                name,
                start,
                end,
                arguments,
            } => {
                let ty = self.check(locals, receiver.get(), list)?;
                let given = self.check_each(locals, arguments.as_slice(), list)?;
                let outcome = call_outcome(self.alloc, self.classes, self.index, name, ty, given)?;
                given_by(self.file, *start, *end, outcome, list)
            }
            Expression::New {
                class,
                start,
                end,
                arguments,
            } => {
                let given = self.check_each(locals, arguments.as_slice(), list)?;
                let outcome = new_outcome(self.alloc, self.classes, self.index, class, given)?;
                given_by(self.file, *start, *end, outcome, list)
            }
        }
    }

    /// The types of expressions, if each has one; their faults are listed.
    #[cycle(check)]
    fn check_each(
        &self,
        locals: &Locals,
        expressions: &[Expression],
        list: &mut Many<Diag>,
    ) -> Result<Option<Many<ValueType>>, NoMemory>
        requires { IsIndex self.now.classes.now self.now.index.now }
        ensures given { IfOk result (λ types. types ≡ walk.types_of self.now.classes.now locals.now.entries (plain_expressions expressions.now)) }
        ensures listed { OnOk result (list.new ≡ list.old ++ walk.faults_of_each self.now.file self.now.classes.now locals.now.entries (plain_expressions expressions.now)) }
    {
        let mut types = Some(Many::new(self.alloc));
        for expression in expressions {
            let ty = self.check(locals, expression, list)?;
            types = with_last(types, ty)?;
        }
        Ok(types)
    }
}
