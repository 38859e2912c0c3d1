//! The parts of types that are made in several steps: names, parameters and functions.

ghost use Rattle.std.specs.Prelude.{◌≡◌, Some, IfOk, OnOk};
ghost use Rattle.sig_model.specs.PlainTy as plain;
ghost use Rattle.rbs_types.specs.Parts as parts;
ghost use Rattle.rbs_types.specs.Machine as machine;

use crate::stack::Stack;
use crate::state::{Head, Level, Listed, Members, Parameters, Slot};
use crate::tall::{Args, Keys, Rest, Tall, Talls};
use plain_data::{Boxed, Many, NoMemory, Word};
use sig_model::ty::TypeName;
use std::alloc::Global;

/// A name with no word yet.
pub fn no_name(alloc: Global) -> TypeName
    ensures { result ≡ parts.no_name }
{
    TypeName {
        rooted: false,
        path: Many::new(alloc),
    }
}

/// The `::` at the head of a name.
pub fn root(alloc: Global) -> TypeName
    ensures { result ≡ parts.root }
{
    TypeName {
        rooted: true,
        path: Many::new(alloc),
    }
}

/// The name with one more word.
#[inline(always)]
pub fn grown(name: TypeName, word: Word) -> Result<TypeName, NoMemory>
    ensures { IfOk result (λ n. n ≡ parts.grown name word) }
{
    let TypeName { rooted, mut path } = name;
    path.push(word)?;
    Ok(TypeName { rooted, path })
}

/// A place with these members before it, which ends no function's result.
pub fn level_of(alloc: Global, members: Members) -> Level
    ensures { result ≡ machine.level_of members }
{
    Level {
        members,
        heads: Stack::new(alloc),
    }
}

/// A place with no members before it.
pub fn empty_level(alloc: Global) -> Level
    ensures { result ≡ machine.ground }
{
    let members = Members::Operands {
        unions: Talls::new(alloc),
        inters: Talls::new(alloc),
    };
    level_of(alloc, members)
}

/// No parameter yet. Takes no memory.
pub fn none_yet(alloc: Global) -> Parameters
    ensures { result ≡ parts.no_parameters }
{
    Parameters {
        required: Args::new(alloc),
        optional: Args::new(alloc),
        rest: Rest::none(),
        trailing: Args::new(alloc),
        keys: Keys::new(alloc),
    }
}

/// No parameter.
pub fn no_parameters(alloc: Global) -> Result<Boxed<Parameters>, NoMemory>
    ensures { IfOk result (λ p. p ≡ parts.no_parameters) }
{
    Boxed::new(alloc, none_yet(alloc))
}

/// The parameters, and no rest of the keywords.
pub fn closed(parameters: Boxed<Parameters>) -> Listed
    ensures { result ≡ parts.closed parameters }
{
    Listed {
        parameters,
        key_rest: Rest::none(),
    }
}

pub fn nothing_listed(alloc: Global) -> Result<Listed, NoMemory>
    ensures { IfOk result (λ l. l ≡ parts.nothing_listed) }
{
    Ok(closed(no_parameters(alloc)?))
}

/// A positional parameter may follow: no keyword stands before it.
pub fn takes_positional(parameters: &Parameters) -> bool
    ensures { result ≡ parts.takes_positional parameters.now }
{
    parameters.keys.is_empty()
}

/// An optional parameter or the rest may follow: neither the rest, a trailing parameter nor a keyword stands before it.
pub fn takes_optional(parameters: &Parameters) -> bool
    ensures { result ≡ parts.takes_optional parameters.now }
{
    parameters.rest.is_none() && parameters.trailing.is_empty() && parameters.keys.is_empty()
}

/// Adds a positional parameter, which is required, or trailing where an optional one or the rest stands before it.
fn add_positional(parameters: &mut Parameters, ty: Tall, name: Option<Word>) -> Result<(), NoMemory>
    ensures { OnOk result (parameters.new ≡ parts.and_positional parameters.old ty name) }
{
    if parameters.optional.is_empty() && parameters.rest.is_none() {
        parameters.required.add(ty, name)
    } else {
        parameters.trailing.add(ty, name)
    }
}

/// Adds one more to these parameters; the rest of the keywords is kept apart.
pub fn add(
    alloc: Global,
    parameters: &mut Parameters,
    slot: Slot,
    ty: Tall,
    name: Option<Word>,
) -> Result<(), NoMemory>
    ensures { OnOk result (parameters.new ≡ parts.added parameters.old slot ty name) }
{
    match slot {
        Slot::Positional => add_positional(parameters, ty, name),
        Slot::Optional => parameters.optional.add(ty, name),
        Slot::Rest => {
            parameters.rest = Rest::of(alloc, ty, name)?;
            Ok(())
        }
        Slot::KeyRest => Ok(()),
        Slot::Key { key, needed } => parameters.keys.add(key, needed, ty),
    }
}

/// These parameters, and one more; the rest of the keywords is kept apart.
fn with_added(
    alloc: Global,
    before: Parameters,
    slot: Slot,
    ty: Tall,
    name: Option<Word>,
) -> Result<Parameters, NoMemory>
    ensures { IfOk result (λ p. p ≡ parts.added before slot ty name) }
{
    let mut parameters = before;
    add(alloc, &mut parameters, slot, ty, name)?;
    Ok(parameters)
}

/// The parameters, and one more; the rest of the keywords is kept apart.
pub fn added(
    alloc: Global,
    before: Boxed<Parameters>,
    slot: Slot,
    ty: Tall,
    name: Option<Word>,
) -> Result<Boxed<Parameters>, NoMemory>
    ensures { IfOk result (λ p. p ≡ parts.added before slot ty name) }
{
    Boxed::new(
        alloc,
        with_added(alloc, before.into_inner(), slot, ty, name)?,
    )
}

/// All parameters, of which this is the last.
pub fn all_of(
    alloc: Global,
    before: Boxed<Parameters>,
    slot: Slot,
    ty: Tall,
    name: Option<Word>,
) -> Result<Listed, NoMemory>
    ensures { IfOk result (λ l. l ≡ parts.all_of before slot ty name) }
{
    match slot {
        Slot::KeyRest => Ok(Listed {
            parameters: before,
            key_rest: Rest::of(alloc, ty, name)?,
        }),
        slot => Ok(closed(added(alloc, before, slot, ty, name)?)),
    }
}

/// The function with this head and this result.
pub fn ended(alloc: Global, head: Head, outcome: Tall) -> Result<Tall, NoMemory>
    ensures { IfOk result (λ t. t ≡ parts.ended head outcome) }
{
    let Head { listed, block } = head;
    Tall::function(alloc, listed, block, outcome)
}

/// The functions with these heads, from the innermost on, whose results end with this type.
pub fn all_ended(alloc: Global, heads: Stack<Head>, outcome: Tall) -> Result<Tall, NoMemory>
    ensures { IfOk result (λ t. t ≡ machine.all_ended heads outcome) }
{
    let mut heads = heads;
    let mut whole = outcome;
    while let Some(head) = heads.pop() {
        whole = ended(alloc, head, whole)?;
    }
    Ok(whole)
}

/// The union of the members before and one more, which alone stands for itself.
pub fn joined_union(before: Talls, last: Tall) -> Result<Tall, NoMemory>
    ensures { IfOk result (λ t. t ≡ machine.joined plain.union before last) }
{
    if before.is_empty() {
        Ok(last)
    } else {
        Ok(Tall::union(before.with(last)?))
    }
}

/// The intersection of the members before and one more, which alone stands for itself.
pub fn joined_inter(before: Talls, last: Tall) -> Result<Tall, NoMemory>
    ensures { IfOk result (λ t. t ≡ machine.joined plain.inter before last) }
{
    if before.is_empty() {
        Ok(last)
    } else {
        Ok(Tall::inter(before.with(last)?))
    }
}
