//! Whether a program defines just what its signature declares.
#![tactic(auto)]

ghost use Rattle.std.specs.Prelude.{◌≡◌, ◌↔◌, map, IfOk, IsTrue};
ghost use Rattle.std.specs.List.{AllByRecursion, IsDistinct};
ghost use Rattle.names.specs.Places.{same_name};
ghost use Rattle.ruby_reader.specs.PlainLaws.{plain_definition, plain_definitions, plain_opening, plain_openings, plain_program};
ghost use Rattle.body_check.specs.Calls.{methods_in};
ghost use Rattle.body_check.specs.Matching.{SameNames, class_names, method_names, opened_names, HasArity, DefinesJust, IsDefined, DeclaresOnce, Matches, IsIndex};

use crate::index::{Index, method_in};
use crate::table::{ClassMethods, MethodEntry};
use names::{Named, Names, all_among, names_of};
use plain_data::NoMemory;
use ruby_reader::{Definition, Opening, Program};
use std::alloc::Global;

/// Whether a definition has as many parameters as its method requires.
fn has_arity(methods: &[MethodEntry], index: &Names, definition: &Definition) -> bool
    requires { index.now ≡ method_names methods.now }
    ensures { IsTrue result ↔ HasArity methods.now (plain_definition definition.now) }
{
    match method_in(methods, index, &definition.name) {
        Some(method) => method.parameters.len() == definition.parameters.len(),
        None => false,
    }
}

/// Whether each definition has as many parameters as its method requires.
fn have_arity(methods: &[MethodEntry], index: &Names, definitions: &[Definition]) -> bool
    requires { index.now ≡ method_names methods.now }
    ensures { IsTrue result ↔ AllByRecursion (HasArity methods.now) (plain_definitions definitions.now) }
{
    for definition in definitions {
        if !has_arity(methods, index, definition) {
            return false;
        }
    }
    true
}

/// Whether some items have just the names of others, each once, where the index has the names of those.
fn have_names<T: Named, U: Named>(
    alloc: Global,
    these: &[T],
    index: &Names,
    those: &[U],
) -> Result<bool, NoMemory>
    requires distinct { IsDistinct same_name (map T.name_of these.now) }
    requires index { index.now ≡ map T.name_of these.now }
    ensures { IfOk result (λ same. IsTrue same ↔ SameNames (map T.name_of these.now) (map U.name_of those.now)) }
{
    let Some(names) = names_of(alloc, those)? else {
        return Ok(false);
    };
    if !all_among(these, &names) {
        return Ok(false);
    }
    Ok(all_among(those, index))
}

/// Whether these definitions are those of just these methods, where the index has the methods' names.
fn defines_just(
    alloc: Global,
    methods: &[MethodEntry],
    index: &Names,
    definitions: &[Definition],
) -> Result<bool, NoMemory>
    requires distinct { IsDistinct same_name (method_names methods.now) }
    requires index { index.now ≡ method_names methods.now }
    ensures { IfOk result (λ just. IsTrue just ↔ DefinesJust methods.now (plain_definitions definitions.now)) }
{
    if !have_names(alloc, methods, index, definitions)? {
        return Ok(false);
    }
    Ok(have_arity(methods, index, definitions))
}

/// Whether an opening defines just the methods that its class declares.
fn is_defined(
    alloc: Global,
    classes: &[ClassMethods],
    index: &Index,
    opening: &Opening,
) -> Result<bool, NoMemory>
    requires declared { AllByRecursion DeclaresOnce classes.now }
    requires index { IsIndex classes.now index.now }
    ensures { IfOk result (λ same. IsTrue same ↔ IsDefined classes.now (plain_opening opening.now)) }
{
    let definitions = opening.definitions.as_slice();
    match index.classes.place_of(&opening.name) {
        Some(place) => defines_just(
            alloc,
            classes[place].methods.as_slice(),
            &index.methods.as_slice()[place],
            definitions,
        ),
        None => defines_just(alloc, &[], &Names::new(alloc), definitions),
    }
}

/// Whether each opening defines just the methods that its class declares.
fn are_defined(
    alloc: Global,
    classes: &[ClassMethods],
    index: &Index,
    openings: &[Opening],
) -> Result<bool, NoMemory>
    requires declared { AllByRecursion DeclaresOnce classes.now }
    requires index { IsIndex classes.now index.now }
    ensures { IfOk result (λ same. IsTrue same ↔ AllByRecursion (IsDefined classes.now) (plain_openings openings.now)) }
{
    for opening in openings {
        if !is_defined(alloc, classes, index, opening)? {
            return Ok(false);
        }
    }
    Ok(true)
}

/// Whether a program defines just what the classes of this index declare.
pub(crate) fn matches(
    alloc: Global,
    classes: &[ClassMethods],
    index: &Index,
    program: &Program,
) -> Result<bool, NoMemory>
    requires distinct { IsDistinct same_name (class_names classes.now) }
    requires declared { AllByRecursion DeclaresOnce classes.now }
    requires index { IsIndex classes.now index.now }
    ensures { IfOk result (λ same. IsTrue same ↔ Matches classes.now (plain_program program.now)) }
{
    let openings = program.openings.as_slice();
    if !have_names(alloc, classes, &index.classes, openings)? {
        return Ok(false);
    }
    are_defined(alloc, classes, index, openings)
}
