//! Whether a state is within the limits of height and of brackets.

ghost use Rattle.std.specs.Prelude.{◌≡◌, ◌≤◌, ◌↔◌, IsTrue};
ghost use Rattle.rbs_types.specs.Capped.{capped};
ghost use Rattle.rbs_declarations.specs.Needs.{need, reach, phrase_height, sort_open, owner_open, purpose_open, focus_open, inner_reach};
ghost use Rattle.rbs_declarations.specs.WholeHeights.{whole_height, inner_height};

use crate::state::{Focus, Owner, Purpose, Sort, State};
use rbs_types::{need_of, reach_of};

/// The types of the declarations that the state leads to need not be higher than 200, and not more than 400 brackets and words need to be open at once.
///
/// What is whole in the state must not be higher than 200. It was so before the token that led to the state, if the state before was within the limits:
/// then only the type that is read can be too high.
///
/// Takes time by the number of open brackets and of functions whose results are pending in that type.
pub fn is_within(state: &State) -> bool
    requires { whole_height state.now ≤ 200 }
    ensures { IsTrue result ↔ ((need state.now ≤ 200) × (reach state.now ≤ 400)) }
{
    is_low(&state.focus) && is_shallow(state)
}

/// The height of the highest type of a phrase of this height: a function is no type, but its parts are.
fn phrase_levels(purpose: &Purpose, levels: u32) -> u32
    ensures { result ≡ phrase_height purpose.now levels }
{
    match purpose {
        Purpose::Overload { .. } => levels.saturating_sub(1),
        _ => levels,
    }
}

/// The type at the focus, if one is read there, need not be higher than 200.
fn is_low(focus: &Focus) -> bool
    ensures { IsTrue result ↔ (inner_height focus.now ≤ 200) }
{
    match focus {
        Focus::Typed { purpose, inner } => {
            let levels = need_of(inner.get());
            phrase_levels(purpose.get(), levels) <= 200
        }
        _ => true,
    }
}

/// Not more than 400 brackets and words need to be open at once.
fn is_shallow(state: &State) -> bool
    ensures { IsTrue result ↔ (reach state.now ≤ 400) }
{
    let open = focus_open(&state.focus) + inner_reach(&state.focus);
    open <= 400 && state.frames.as_slice().len() <= (400 - open) as usize
}

/// How many words a declaration of this sort opens.
fn sort_open(sort: Sort) -> u32
    ensures open { result ≡ sort_open sort }
    ensures few { result ≤ 1 }
{
    match sort {
        Sort::Class | Sort::Module | Sort::Interface => 1,
        Sort::Alias | Sort::Constant => 0,
    }
}

/// How many words are open around the type parameters of this owner.
fn owner_open(owner: &Owner) -> u32
    ensures open { result ≡ owner_open owner.now }
    ensures few { result ≤ 1 }
{
    match owner {
        Owner::Heading { sort, .. } => sort_open(*sort),
        Owner::Overload { .. } => 0,
    }
}

/// How many brackets and words are open around a type for this purpose.
fn purpose_open(purpose: &Purpose) -> u32
    ensures open { result ≡ purpose_open purpose.now }
    ensures few { result ≤ 2 }
{
    match purpose {
        Purpose::Parent { .. } | Purpose::SelfType { .. } => 1,
        Purpose::Bound { owner, .. } => owner_open(owner.get()) + 1,
        _ => 0,
    }
}

/// How many brackets and words the focus opens, aside from those inside of a type.
fn focus_open(focus: &Focus) -> u32
    ensures open { result ≡ focus_open focus.now }
    ensures few { result ≤ 3 }
{
    match focus {
        Focus::Name { sort, .. } | Focus::Named { sort, .. } => sort_open(*sort),
        Focus::Param { owner, .. }
        | Focus::Unchecked { owner, .. }
        | Focus::Varied { owner, .. }
        | Focus::ParamName { owner, .. }
        | Focus::Bound { owner, .. }
        | Focus::BoundNamed { owner, .. }
        | Focus::BoundSingleton { owner, .. }
        | Focus::Bounded { owner, .. } => owner_open(owner.get()) + 1,
        Focus::BoundClass { owner, .. } => owner_open(owner.get()) + 2,
        Focus::Parameterized { owner, .. } => owner_open(owner.get()),
        Focus::Parent { .. } | Focus::SelfType { .. } | Focus::SelfNamed { .. } => 1,
        Focus::Typed { purpose, .. } => purpose_open(purpose.get()),
        _ => 0,
    }
}

/// How many brackets need to be open at once in what the focus holds, counted up to 1000.
fn inner_reach(focus: &Focus) -> u32
    ensures { result ≡ capped (inner_reach focus.now) }
{
    match focus {
        Focus::Typed { inner, .. } => reach_of(inner.get()),
        Focus::BoundSingleton { .. } => 1,
        _ => 0,
    }
}
