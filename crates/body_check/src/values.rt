//! The types of parameters, statements and bodies.
#![tactic(auto, using(crate::proofs::Rules::plain_steps))]

ghost use Rattle.std.specs.Prelude.{◌≡◌, ◌++◌, [], Some, IfOk, OnOk};
ghost use Rattle.ruby_reader.specs.declared.tree.Statement.TheVariants as statement;
ghost use Rattle.ruby_reader.specs.PlainLaws.{plain_statement, plain_statements};
ghost use Rattle.body_check.specs.declared.ty.ValueType.TheVariants as ty;
ghost use Rattle.body_check.specs.Matching.{IsIndex};
ghost use Rattle.body_check.specs.Typing.{expression_of, with_parameters};
ghost use Rattle.body_check.specs.Walk as walk;

use crate::expressions::{Checker, Locals};
use crate::ty::ValueType;
use indexmap::IndexMap;
use plain_data::{Many, NoMemory, Word};
use ruby_reader::{Assignment, Statement};
use sig_model::diag::Diag;
use std::alloc::Global;

/// The parameters of a method, each with its declared type.
pub(crate) fn with_parameters(
    alloc: Global,
    names: &[Word],
    types: &[ValueType],
) -> Result<Locals, NoMemory>
    ensures { IfOk result (λ locals. locals.entries ≡ with_parameters [] names.now types.now) }
{
    let mut locals = IndexMap::new(alloc);
    let mut types = types;
    for name in names {
        let [ty, rest @ ..] = types else {
            break;
        };
        locals.insert(name.clone()?, ty.copy()?)?;
        types = rest;
    }
    Ok(locals)
}

/// The type of one more statement, where those before it have one.
fn type_behind(before: Option<ValueType>, given: Option<ValueType>) -> Option<ValueType>
    ensures { result ≡ walk.type_behind before given }
{
    match before {
        Some(_) => given,
        None => None,
    }
}

impl<'a> Checker<'a> {
    /// The type of what an assignment assigns, which its local gets.
    fn check_assignment(
        &self,
        locals: &mut Locals,
        assignment: &Assignment,
        list: &mut Many<Diag>,
    ) -> Result<Option<ValueType>, NoMemory>
        requires { IsIndex self.now.classes.now self.now.index.now }
        ensures given { IfOk result (λ ty. ty ≡ walk.type_of self.now.classes.now locals.old.entries (expression_of (plain_statement (statement.Assignment assignment.now)))) }
        ensures behind { OnOk result (locals.new.entries ≡ walk.locals_behind self.now.classes.now locals.old.entries (plain_statement (statement.Assignment assignment.now))) }
        ensures listed { OnOk result (list.new ≡ list.old ++ walk.faults_of self.now.file self.now.classes.now locals.old.entries (expression_of (plain_statement (statement.Assignment assignment.now)))) }
    {
        let Some(ty) = self.check(locals, &assignment.value, list)? else {
            return Ok(None);
        };
        locals.insert(assignment.name.clone()?, ty.copy()?)?;
        Ok(Some(ty))
    }

    /// The type of a statement's value, if it has one; the locals are those behind it.
    fn check_statement(
        &self,
        locals: &mut Locals,
        statement: &Statement,
        list: &mut Many<Diag>,
    ) -> Result<Option<ValueType>, NoMemory>
        requires { IsIndex self.now.classes.now self.now.index.now }
        ensures given { IfOk result (λ ty. ty ≡ walk.type_of self.now.classes.now locals.old.entries (expression_of (plain_statement statement.now))) }
        ensures behind { OnOk result (locals.new.entries ≡ walk.locals_behind self.now.classes.now locals.old.entries (plain_statement statement.now)) }
        ensures listed { OnOk result (list.new ≡ list.old ++ walk.faults_of self.now.file self.now.classes.now locals.old.entries (expression_of (plain_statement statement.now))) }
    {
        match statement {
            Statement::Expression(expression) => self.check(locals, expression, list),
            Statement::Assignment(assignment) => self.check_assignment(locals, assignment, list),
        }
    }

    /// The type of the last statement, where each has one: `nil` where there is none. Their faults are listed.
    pub fn check_statements(
        &self,
        locals: Locals,
        statements: &[Statement],
        list: &mut Many<Diag>,
    ) -> Result<Option<ValueType>, NoMemory>
        requires { IsIndex self.now.classes.now self.now.index.now }
        ensures given { IfOk result (λ given. given ≡ walk.last_type self.now.classes.now (Some ty.Nil) locals.entries (plain_statements statements.now)) }
        ensures listed { OnOk result (list.new ≡ list.old ++ walk.faults_in self.now.file self.now.classes.now locals.entries (plain_statements statements.now)) }
    {
        let mut locals = locals;
        let mut given = Some(ValueType::Nil);
        for statement in statements {
            let ty = self.check_statement(&mut locals, statement, list)?;
            given = type_behind(given, ty);
        }
        Ok(given)
    }
}
