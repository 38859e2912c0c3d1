//! The faults of a program against its signature.
#![tactic(auto, using(crate::proofs::Rules::plain_steps))]

ghost use Rattle.std.specs.Prelude.{◌≡◌, ◌++◌, Some, List, IfOk, OnOk, MatchOption};
ghost use Rattle.sig_model.specs.declared.diag.Diag.{Diag};
ghost use Rattle.ruby_reader.specs.PlainLaws.{plain_definition, plain_definitions, plain_openings, plain_program};
ghost use Rattle.body_check.specs.Calls.{methods_in};
ghost use Rattle.body_check.specs.Matching.{method_names, Matches, IsIndex};
ghost use Rattle.ruby_reader.specs.PlainTree.{PlainExpression};
ghost use Rattle.body_check.specs.declared.ty.ValueType.{ValueType};
ghost use Rattle.body_check.specs.Typing.{HasType, Locals};
ghost use Rattle.body_check.specs.Faults.{OfProgram};
ghost use Rattle.body_check.specs.Walk as walk;

use crate::expressions::{Checker, Locals};
use crate::index::{index_of, method_in};
use crate::matching::matches;
use crate::table::{ClassMethods, MethodEntry};
use crate::ty::{ValueType, fits, type_text};
use crate::values::with_parameters;
use names::Names;
use plain_data::{Many, NoMemory};
use ruby_reader::{Definition, Opening, Program};
use sig_model::diag::{Diag, DiagId};
use sig_model::place::Place;
use std::alloc::Global;

impl<'a> Checker<'a> {
    /// Lists a body that gives one type where another is wanted, if it does.
    fn check_result(
        &self,
        start: u32,
        wanted: &ValueType,
        given: &ValueType,
        list: &mut Many<Diag>,
    ) -> Result<(), NoMemory>
        ensures { OnOk result (list.new ≡ list.old ++ walk.misfit_fault self.now.file start wanted.now (Some given.now)) }
    {
        if fits(given, wanted) {
            return Ok(());
        }
        let mut args = Many::new(self.alloc);
        args.push(type_text(self.alloc, given)?)?;
        args.push(type_text(self.alloc, wanted)?)?;
        list.push(Diag {
            place: Place {
                file: self.file,
                start,
                end: start,
            },
            id: DiagId::MethodBodyTypeMismatch,
            args,
        })?;
        Ok(())
    }

    /// Lists the faults of a definition of a method.
    fn check_method(
        &self,
        definition: &Definition,
        method: &MethodEntry,
        list: &mut Many<Diag>,
    ) -> Result<(), NoMemory>
        requires { IsIndex self.now.classes.now self.now.index.now }
        ensures { OnOk result (list.new ≡ list.old ++ walk.faults_of_method self.now.file self.now.classes.now (plain_definition definition.now) method.now) }
    {
        let names = definition.parameters.as_slice();
        let locals = with_parameters(self.alloc, names, method.parameters.as_slice())?;
        match self.check_statements(locals, definition.body.as_slice(), list)? {
            Some(given) => self.check_result(definition.start, &method.gives, &given, list),
            None => Ok(()),
        }
    }

    /// Lists the faults of a class's definitions, where the index has the names of its methods.
    fn check_definitions(
        &self,
        methods: &[MethodEntry],
        index: &Names,
        definitions: &[Definition],
        list: &mut Many<Diag>,
    ) -> Result<(), NoMemory>
        requires classes { IsIndex self.now.classes.now self.now.index.now }
        requires methods { index.now ≡ method_names methods.now }
        ensures { OnOk result (list.new ≡ list.old ++ walk.faults_of_definitions self.now.file self.now.classes.now methods.now (plain_definitions definitions.now)) }
    {
        for definition in definitions {
            if let Some(method) = method_in(methods, index, &definition.name) {
                self.check_method(definition, method, list)?;
            }
        }
        Ok(())
    }

    /// Lists the faults of an opening's definitions.
    fn check_opening(&self, opening: &Opening, list: &mut Many<Diag>) -> Result<(), NoMemory>
        requires { IsIndex self.now.classes.now self.now.index.now }
        ensures { OnOk result (list.new ≡ list.old ++ walk.faults_of_definitions self.now.file self.now.classes.now (methods_in opening.now.name self.now.classes.now) (plain_definitions opening.now.definitions)) }
    {
        match self.index.classes.place_of(&opening.name) {
            Some(place) => self.check_definitions(
                self.classes[place].methods.as_slice(),
                &self.index.methods.as_slice()[place],
                opening.definitions.as_slice(),
                list,
            ),
            None => Ok(()),
        }
    }

    /// Lists the faults of openings one after another.
    fn check_openings(&self, openings: &[Opening], list: &mut Many<Diag>) -> Result<(), NoMemory>
        requires { IsIndex self.now.classes.now self.now.index.now }
        ensures { OnOk result (list.new ≡ list.old ++ walk.faults_of_openings self.now.file self.now.classes.now (plain_openings openings.now)) }
    {
        for opening in openings {
            self.check_opening(opening, list)?;
        }
        Ok(())
    }

    /// The faults of a program in its order.
    fn check_program(&self, program: &Program) -> Result<Many<Diag>, NoMemory>
        requires { IsIndex self.now.classes.now self.now.index.now }
        ensures { IfOk result (λ list. list ≡ walk.faults_of_program self.now.file self.now.classes.now (plain_program program.now)) }
    {
        let mut list = Many::new(self.alloc);
        self.check_openings(program.openings.as_slice(), &mut list)?;
        let locals: Locals = Locals::new(self.alloc);
        self.check_statements(locals, program.statements.as_slice(), &mut list)?;
        Ok(list)
    }
}

/// The faults of a program in its order, or `None` where it doesn't define just what the classes declare.
/// No expression has two types.
#[tactic(auto, using(crate::proofs::Judged::one_type))]
pub fn check(
    alloc: Global,
    file: u32,
    classes: &[ClassMethods],
    program: &Program,
) -> Result<Option<Many<Diag>>, NoMemory>
    ensures answer { IfOk result (λ found. MatchOption found (¬ (Matches classes.now (plain_program program.now)))
        (λ list. Matches classes.now (plain_program program.now) × OfProgram file classes.now (plain_program program.now) list
        × ((other : List Diag) → OfProgram file classes.now (plain_program program.now) other → other ≡ list))) }
    ensures once { (locals : Locals) (x : PlainExpression) (t u : ValueType) → HasType classes.now locals x t → HasType classes.now locals x u → t ≡ u }
{
    let Some(index) = index_of(alloc, classes)? else {
        return Ok(None);
    };
    if !matches(alloc, classes, &index, program)? {
        return Ok(None);
    }
    let checker = Checker {
        alloc,
        file,
        classes,
        index: &index,
    };
    Ok(Some(checker.check_program(program)?))
}
