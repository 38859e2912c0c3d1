//! Names of types, read one token at a time.

ghost use Rattle.std.specs.Prelude.{◌≡◌, [], IfOk};
ghost use Rattle.rbs_types.specs.Grammar.{ends_capital, ends_interface, ends_small};
ghost use Rattle.rbs_types.specs.Parts as parts;
ghost use Rattle.rbs_types.specs.Symbols.{scope_at};
ghost use Rattle.rbs_declarations.specs.declared.state.Step.TheVariants as step_at;
ghost use Rattle.rbs_declarations.specs.Machine as machine;
ghost use Rattle.rbs_declarations.specs.Does.{Goes, use_for};

use crate::state::{Naming, Sort, Step};
use plain_data::{Many, NoMemory, Word};
use rbs_terminals::{Kind, Mark, Spot};
use rbs_types::is_scope;
use sig_model::ty::TypeName;
use std::alloc::Global;

/// What a name may name.
#[derive(Clone, Copy, Debug, PartialEq, Eq, Drop)]
pub enum NameUse {
    Class,
    Interface,
    Alias,
    ClassOrInterface,
}

/// What a token does in a name.
#[derive(Drop)]
pub enum Progress {
    /// The name goes on.
    Further(Naming),
    /// The name is whole with the token.
    Whole(TypeName),
    /// The name was whole before the token, which is given back.
    Before { name: TypeName, kind: Kind },
    /// The token continues no name.
    Stuck,
}

/// A name of no word yet.
fn empty_name(alloc: Global, rooted: bool) -> TypeName
    ensures { result ≡ record { rooted = rooted; path = [] } }
{
    TypeName {
        rooted,
        path: Many::new(alloc),
    }
}

/// Where a name must begin.
pub fn no_naming(alloc: Global) -> Naming
    ensures { result ≡ machine.no_naming }
{
    Naming {
        name: empty_name(alloc, false),
        step: Step::Start,
    }
}

/// Behind the `::` at the head of a name.
pub fn rooted_naming(alloc: Global) -> Naming
    ensures { result ≡ machine.naming_of parts.root step_at.Scope }
{
    Naming {
        name: empty_name(alloc, true),
        step: Step::Scope,
    }
}

/// The name with one more word.
pub fn grown(name: TypeName, word: Word) -> Result<TypeName, NoMemory>
    ensures { IfOk result (λ n. n ≡ parts.grown name word) }
{
    let TypeName { rooted, mut path } = name;
    path.push(word)?;
    Ok(TypeName { rooted, path })
}

/// A name of a capital word, which may go on.
pub fn upper_naming(name: TypeName, word: Word) -> Result<Naming, NoMemory>
    ensures { IfOk result (λ n. n ≡ machine.naming_of (parts.grown name word) step_at.Upper) }
{
    Ok(Naming {
        name: grown(name, word)?,
        step: Step::Upper,
    })
}

/// What is declared under a name of this use.
pub fn use_of(sort: Sort) -> NameUse
    ensures { use_for result ≡ machine.use_of sort }
{
    match sort {
        Sort::Class | Sort::Module | Sort::Constant => NameUse::Class,
        Sort::Interface => NameUse::Interface,
        Sort::Alias => NameUse::Alias,
    }
}

impl NameUse {
    /// A capital word may be the name's last.
    fn ends_capital(self) -> bool
        ensures { result ≡ ends_capital (use_for self) }
    {
        match self {
            NameUse::Class | NameUse::ClassOrInterface => true,
            NameUse::Interface | NameUse::Alias => false,
        }
    }

    /// The word of an interface may be the name's last.
    fn ends_interface(self) -> bool
        ensures { result ≡ ends_interface (use_for self) }
    {
        match self {
            NameUse::Interface | NameUse::ClassOrInterface => true,
            NameUse::Class | NameUse::Alias => false,
        }
    }

    /// A small word may be the name's last.
    fn ends_small(self) -> bool
        ensures { result ≡ ends_small (use_for self) }
    {
        match self {
            NameUse::Alias => true,
            NameUse::Class | NameUse::Interface | NameUse::ClassOrInterface => false,
        }
    }
}

/// What a token does where a word must come.
fn word_on(name_use: NameUse, name: TypeName, kind: Kind) -> Result<Progress, NoMemory>
    ensures { IfOk result (Goes (machine.word_on (use_for name_use) name kind) kind) }
{
    match kind {
        Kind::Upper(word) => Ok(Progress::Further(upper_naming(name, word)?)),
        Kind::Interface(word) => {
            if name_use.ends_interface() {
                Ok(Progress::Whole(grown(name, word)?))
            } else {
                Ok(Progress::Stuck)
            }
        }
        Kind::Lower(word) => {
            if name_use.ends_small() {
                Ok(Progress::Whole(grown(name, word)?))
            } else {
                Ok(Progress::Stuck)
            }
        }
        _ => Ok(Progress::Stuck),
    }
}

/// What a token does where a name must begin.
pub fn first_on(
    alloc: Global,
    name_use: NameUse,
    name: TypeName,
    kind: Kind,
) -> Result<Progress, NoMemory>
    ensures { IfOk result (Goes (machine.first_on (use_for name_use) name kind) kind) }
{
    match kind {
        Kind::Mark(Mark::Scope) => Ok(Progress::Further(rooted_naming(alloc))),
        kind => word_on(name_use, name, kind),
    }
}

/// What a token does behind a capital word.
fn upper_on(name_use: NameUse, name: TypeName, kind: Kind, spot: &Spot) -> Progress
    ensures { Goes (machine.upper_on (use_for name_use) name (scope_at kind spot.now)) kind result }
{
    if is_scope(&kind, spot) {
        let step = Step::Scope;
        Progress::Further(Naming { name, step })
    } else if name_use.ends_capital() {
        Progress::Before { name, kind }
    } else {
        Progress::Stuck
    }
}

/// What a token does in a name.
pub fn naming_on(
    alloc: Global,
    name_use: NameUse,
    naming: Naming,
    kind: Kind,
    spot: &Spot,
) -> Result<Progress, NoMemory>
    ensures { IfOk result (Goes (machine.naming_on (use_for name_use) naming kind spot.now) kind) }
{
    let Naming { name, step } = naming;
    match step {
        Step::Start => first_on(alloc, name_use, name, kind),
        Step::Scope => word_on(name_use, name, kind),
        Step::Upper => Ok(upper_on(name_use, name, kind, spot)),
    }
}
