//! Classes and methods, found by their names.

ghost use Rattle.std.specs.Prelude.{◌≡◌, ◌↔◌, List, map, IfOk, MatchOption};
ghost use Rattle.std.specs.List.{AllByRecursion, IsDistinct};
ghost use Rattle.std.specs.Option.{option_copied};
ghost use Rattle.names.specs.Places.{same_name};
ghost use Rattle.body_check.specs.declared.table.ClassMethods.{ClassMethods};
ghost use Rattle.body_check.specs.Calls.{methods_in, method_in, method_on, constructor_parameters};
ghost use Rattle.body_check.specs.Matching.{class_names, method_names, DeclaresOnce, IsIndex};

use crate::table::{ClassMethods, MethodEntry};
use crate::ty::ValueType;
use names::{Names, names_of};
use plain_data::{Many, NoMemory, Word};
use std::alloc::Global;

/// The names of some classes, and for each class the names of its methods.
#[derive(Debug, Drop)]
pub(crate) struct Index {
    pub classes: Names,
    pub methods: Many<Names>,
}

/// The names of the methods of each class, or `None` where a class has two of one name.
fn methods_of_each(alloc: Global, classes: &[ClassMethods]) -> Result<Option<Many<Names>>, NoMemory>
    ensures { IfOk result (λ found. MatchOption found (¬ (AllByRecursion DeclaresOnce classes.now))
        (λ methods. AllByRecursion DeclaresOnce classes.now × (methods ≡ map (λ (c : ClassMethods). method_names c.methods) classes.now))) }
{
    let mut methods = Many::new(alloc);
    for class in classes {
        let Some(names) = names_of(alloc, class.methods.as_slice())? else {
            return Ok(None);
        };
        methods.push(names)?;
    }
    Ok(Some(methods))
}

/// The index of some classes, or `None` where two classes, or two methods of one class, have one name.
pub(crate) fn index_of(alloc: Global, classes: &[ClassMethods]) -> Result<Option<Index>, NoMemory>
    ensures { IfOk result (λ found. MatchOption found (¬ (IsDistinct same_name (class_names classes.now) × AllByRecursion DeclaresOnce classes.now))
        (λ index. IsDistinct same_name (class_names classes.now) × AllByRecursion DeclaresOnce classes.now × IsIndex classes.now index)) }
{
    let Some(names) = names_of(alloc, classes)? else {
        return Ok(None);
    };
    match methods_of_each(alloc, classes)? {
        Some(methods) => Ok(Some(Index {
            classes: names,
            methods,
        })),
        None => Ok(None),
    }
}

/// The method with a name, where the index has the methods' names.
pub(crate) fn method_in<'a>(
    methods: &'a [MethodEntry],
    index: &Names,
    name: &Word,
) -> Option<&'a MethodEntry>
    requires { index.now ≡ method_names methods.now }
    ensures { option_copied result ≡ method_in name.now methods.now }
{
    let place = index.place_of(name)?;
    Some(&methods[place])
}

/// The method with a name of the class with a name.
pub(crate) fn method_of_class<'a>(
    classes: &'a [ClassMethods],
    index: &Index,
    class: &Word,
    name: &Word,
) -> Option<&'a MethodEntry>
    requires { IsIndex classes.now index.now }
    ensures { option_copied result ≡ method_in name.now (methods_in class.now classes.now) }
{
    let place = index.classes.place_of(class)?;
    method_in(
        classes[place].methods.as_slice(),
        &index.methods.as_slice()[place],
        name,
    )
}

/// The method that a call finds on a value of a type.
pub(crate) fn method_on<'a>(
    classes: &'a [ClassMethods],
    index: &Index,
    ty: &ValueType,
    name: &Word,
) -> Option<&'a MethodEntry>
    requires { IsIndex classes.now index.now }
    ensures { option_copied result ≡ method_on classes.now ty.now name.now }
{
    match ty {
        ValueType::Class(class) => method_of_class(classes, index, class, name),
        ValueType::Nil | ValueType::Void => None,
    }
}
