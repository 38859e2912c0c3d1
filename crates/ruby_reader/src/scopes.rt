//! Whether each local of a program is read in its scope, and named once, and the class of each new object is opened.
#![tactic(auto, using(crate::specs::PlainLaws::plain_laws))]

ghost use Rattle.std.specs.Prelude.{◌≡◌, ◌↔◌, List, [], ℕ, map, IfOk, IsTrue, MatchBool};
ghost use Rattle.std.specs.List.{AllByRecursion};
ghost use Rattle.names.specs.Places.{is_among};
ghost use Rattle.ruby_reader.specs.declared.tree.Opening.{Opening};
ghost use Rattle.ruby_reader.specs.PlainTree.{PlainOpening};
ghost use Rattle.ruby_reader.specs.PlainLaws.{plain_expression, plain_expressions, plain_statement, plain_statements, plain_definition, plain_definitions, plain_openings, plain_program};
ghost use Rattle.ruby_reader.specs.Scopes.{Reads, ReadsEach, Keeps, locals_behind, InScope, HasScope, HasScopes};

use crate::tree::{Definition, Expression, Opening, Program, Statement};
use names::{Names, names_of};
use plain_data::NoMemory;
use std::alloc::Global;

/// Whether an expression reads none but these locals, and makes objects of none but these classes.
#[cycle(reads)]
fn reads(classes: &Names, locals: &Names, expression: &Expression) -> bool
    ensures { IsTrue result ↔ Reads classes.now locals.now (plain_expression expression.now) }
{
    match expression {
        Expression::Literal(_) => true,
        Expression::Local(name) => locals.contains(name),
        Expression::Call {
            receiver,
            name: _,
            start: _,
            end: _,
            arguments,
        } => reads(classes, locals, receiver.get())
            && reads_each(classes, locals, arguments.as_slice()),
        Expression::New {
            class,
            start: _,
            end: _,
            arguments,
        } => classes.contains(class) && reads_each(classes, locals, arguments.as_slice()),
    }
}

/// Whether each of these expressions does.
#[cycle(reads)]
fn reads_each(classes: &Names, locals: &Names, expressions: &[Expression]) -> bool
    ensures { IsTrue result ↔ ReadsEach classes.now locals.now (plain_expressions expressions.now) }
{
    for expression in expressions {
        if !reads(classes, locals, expression) {
            return false;
        }
    }
    true
}

/// Whether a statement keeps to these locals, to which it adds the one that it names.
fn keeps(classes: &Names, locals: &mut Names, statement: &Statement) -> Result<bool, NoMemory>
    ensures { IfOk result (λ kept. MatchBool kept
        (Keeps classes.now locals.old (plain_statement statement.now) × (locals.new ≡ locals_behind locals.old (plain_statement statement.now)))
        (¬ (Keeps classes.now locals.old (plain_statement statement.now)))) }
{
    match statement {
        Statement::Expression(expression) => Ok(reads(classes, locals, expression)),
        Statement::Assignment(assignment) => {
            if !reads(classes, locals, &assignment.value) {
                return Ok(false);
            }
            locals.add(assignment.name.clone()?)
        }
    }
}

/// Whether each statement keeps to the locals before it.
fn in_scope(classes: &Names, locals: Names, statements: &[Statement]) -> Result<bool, NoMemory>
    ensures { IfOk result (λ kept. IsTrue kept ↔ InScope classes.now locals (plain_statements statements.now)) }
{
    let mut locals = locals;
    for statement in statements {
        if !keeps(classes, &mut locals, statement)? {
            return Ok(false);
        }
    }
    Ok(true)
}

/// Whether a method's parameters have different names, and its body keeps to its scope.
fn has_scope(alloc: Global, classes: &Names, definition: &Definition) -> Result<bool, NoMemory>
    ensures { IfOk result (λ kept. IsTrue kept ↔ HasScope classes.now (plain_definition definition.now)) }
{
    match names_of(alloc, definition.parameters.as_slice())? {
        Some(locals) => in_scope(classes, locals, definition.body.as_slice()),
        None => Ok(false),
    }
}

/// Whether each method keeps to its scope.
fn have_scope(alloc: Global, classes: &Names, definitions: &[Definition]) -> Result<bool, NoMemory>
    ensures { IfOk result (λ kept. IsTrue kept ↔ AllByRecursion (HasScope classes.now) (plain_definitions definitions.now)) }
{
    for definition in definitions {
        if !has_scope(alloc, classes, definition)? {
            return Ok(false);
        }
    }
    Ok(true)
}

/// Whether each method of these classes keeps to its scope.
fn classes_have_scope(
    alloc: Global,
    classes: &Names,
    openings: &[Opening],
) -> Result<bool, NoMemory>
    ensures { IfOk result (λ kept. IsTrue kept ↔ AllByRecursion (λ (o : PlainOpening). AllByRecursion (HasScope classes.now) o.definitions) (plain_openings openings.now)) }
{
    for opening in openings {
        if !have_scope(alloc, classes, opening.definitions.as_slice())? {
            return Ok(false);
        }
    }
    Ok(true)
}

/// The names of these classes.
fn opened_names(alloc: Global, openings: &[Opening]) -> Result<Names, NoMemory>
    ensures { IfOk result (λ names. (n : List ℕ) → is_among n names ≡ is_among n (map (λ (o : Opening). o.name) openings.now)) }
{
    let mut names = Names::new(alloc);
    for opening in openings {
        names.add(opening.name.clone()?)?;
    }
    Ok(names)
}

/// Whether each method keeps to its scope with these classes, and so does the main part.
fn keep_scopes(alloc: Global, classes: &Names, program: &Program) -> Result<bool, NoMemory>
    ensures { IfOk result (λ kept. IsTrue kept ↔
        (AllByRecursion (λ (o : PlainOpening). AllByRecursion (HasScope classes.now) o.definitions) (plain_openings program.now.openings)
        × InScope classes.now [] (plain_statements program.now.statements))) }
{
    if !classes_have_scope(alloc, classes, program.openings.as_slice())? {
        return Ok(false);
    }
    in_scope(classes, Names::new(alloc), program.statements.as_slice())
}

/// Whether each method keeps to its scope, and so does the main part.
pub(crate) fn has_scopes(alloc: Global, program: &Program) -> Result<bool, NoMemory>
    ensures { IfOk result (λ kept. IsTrue kept ↔ HasScopes (plain_program program.now)) }
{
    let classes = opened_names(alloc, program.openings.as_slice())?;
    keep_scopes(alloc, &classes, program)
}
