//! Where a type is whole before a token, which doesn't go on with it.

ghost use Rattle.std.specs.Prelude.{◌≡◌, []};
ghost use Rattle.sig_model.specs.PlainTy as plain;
ghost use Rattle.sig_model.specs.PlainTy.{PlainTy};
ghost use Rattle.sig_model.specs.declared.ty.TypeName.{TypeName};
ghost use Rattle.rbs_types.specs.Symbols.{token};
ghost use Rattle.rbs_types.specs.Machine as machine;
ghost use Rattle.rbs_types.specs.Ends.{ends_before};

use crate::state::{Focus, Level, Members, State};
use crate::type_names::is_scope;
use rbs_terminals::{Kind, Mark, Spot};

/// The token doesn't go on with a type that stands here, which no question mark may follow.
fn ends_opt(members: &Members, kind: &Kind) -> bool
    ensures { (t : PlainTy) → result ≡ ends_before (machine.end_opt t members.now []) (machine.after_opt t members.now [] kind.now) }
{
    match members {
        Members::Operands { .. } => match kind {
            Kind::Mark(Mark::Amp | Mark::Bar) => false,
            _ => true,
        },
        Members::Result | Members::Closed => true,
    }
}

/// A question mark doesn't go on with a type that stands here.
fn ends_asked(level: &Level) -> bool
    ensures { (t : PlainTy) → result ≡ ends_before (machine.end_simple t level.now []) (machine.question t level.now.members level.now.heads []) }
{
    match level.members {
        Members::Closed => level.heads.is_empty(),
        Members::Operands { .. } | Members::Result => false,
    }
}

/// The token doesn't go on with a type that stands here, which a question mark may follow.
fn ends_simple(level: &Level, kind: &Kind) -> bool
    ensures { (t : PlainTy) → result ≡ ends_before (machine.end_simple t level.now []) (machine.after_simple t level.now [] kind.now) }
{
    match kind {
        Kind::Mark(Mark::Question) => ends_asked(level),
        kind => ends_opt(&level.members, kind),
    }
}

/// The token doesn't go on with a name that stands here.
fn ends_bare(level: &Level, kind: &Kind) -> bool
    ensures { (n : TypeName) → result ≡ ends_before (machine.end_simple (plain.name n plain.no_tys) level.now []) (machine.after_bare n level.now [] kind.now) }
{
    match kind {
        Kind::Mark(Mark::OpenSquare) => false,
        kind => ends_simple(level, kind),
    }
}

/// The token doesn't go on with a capital word that stands here.
fn ends_upper(level: &Level, kind: &Kind, spot: &Spot) -> bool
    ensures { (n : TypeName) → result ≡ ends_before (machine.end_simple (plain.name n plain.no_tys) level.now []) (machine.after_upper n level.now [] kind.now spot.now) }
{
    if is_scope(kind, spot) {
        false
    } else {
        ends_bare(level, kind)
    }
}

/// Where no bracket is open, a type is whole at the focus, and the token doesn't go on with it.
fn ends_at(focus: &Focus, kind: &Kind, spot: &Spot) -> bool
    ensures { result ≡ ends_before (machine.ends focus.now []) (machine.step focus.now [] kind.now spot.now) }
{
    match focus {
        Focus::Upper { level, .. } => ends_upper(level, kind, spot),
        Focus::Bare { level, .. } => ends_bare(level, kind),
        Focus::Simple { level, .. } => ends_simple(level, kind),
        Focus::Optional { members, .. } => ends_opt(members, kind),
        _ => false,
    }
}

/// A type is whole before the token, which doesn't go on with it: the token stands behind the type, or nowhere.
pub fn is_ended(state: &State, kind: &Kind, spot: &Spot) -> bool
    ensures { result ≡ ends_before (machine.final state.now) (machine.next state.now (token kind.now spot.now)) }
{
    if state.frames.is_empty() {
        ends_at(&state.focus, kind, spot)
    } else {
        false
    }
}
