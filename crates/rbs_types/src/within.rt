//! What a state needs, for the limits: how high the least type is that it leads to, and how many brackets are open at once.
//!
//! Heights and numbers are counted up to [`MOST`](crate::tallest::MOST).
#![tactic(auto, using(crate::proofs::Levels::levels))]

ghost use Rattle.std.specs.Prelude.{◌≡◌, ◌≤◌, ◌+◌, ◌↔◌, IsTrue, reverse};
ghost use Rattle.rbs_types.specs.Capped.{capped};
ghost use Rattle.rbs_types.specs.Needs.{rise_over, rise_among, rise_heads, rise, owned, held, kept_height, up, need_at, need, forced, focus_open, owner_open, frame_open, frames_open, reach};

use crate::state::{Focus, Frame, Head, Level, Members, Owner, Parameters, Slot, State};
use crate::tall::Talls;
use crate::tallest::{MOST, above};

/// The least type that the state leads to is not above `top`, and not more than 400 brackets have to be open at once.
///
/// Takes time by the number of open brackets and of functions whose results are pending.
pub fn is_within(state: &State, top: u32) -> bool
    requires { top ≤ 999 }
    ensures { IsTrue result ↔ ((need state.now ≤ top) × (reach state.now ≤ 400)) }
{
    need_of(state) <= top && reach_of(state) <= 400
}

/// The height of the least type that goes on from the state, counted up to 1000.
pub fn need_of(state: &State) -> u32
    ensures { result ≡ capped (need state.now) }
{
    up(state.frames.as_slice(), need_at(&state.focus))
}

/// The height of what stands around these brackets, which are listed from the outermost on, where the type in them has this height.
fn up(frames: &[Frame], mut levels: u32) -> u32
    requires { levels ≤ 1000 }
    ensures { result ≡ capped (up (reverse frames.now) levels) }
{
    let mut left = frames;
    while let Some((frame, outer)) = left.split_last() {
        levels = held(frame, levels);
        left = outer;
    }
    levels
}

/// The height of a union or an intersection of these members and one of this height.
fn over(members: &Talls, levels: u32) -> u32
    requires { levels ≤ 1000 }
    ensures { result ≡ capped (rise_over members.now levels) }
{
    if members.is_empty() {
        return levels;
    }
    above(members.levels().max(levels))
}

/// The height of what these members and one of this height make.
fn among(members: &Members, levels: u32) -> u32
    requires { levels ≤ 1000 }
    ensures { result ≡ capped (rise_among members.now levels) }
{
    match members {
        Members::Operands { unions, inters } => over(unions, over(inters, levels)),
        Members::Result | Members::Closed => levels,
    }
}

/// The height of the functions, listed from the outermost on, whose results end with a type of this height.
fn ending(heads: &[Head], mut levels: u32) -> u32
    requires { levels ≤ 1000 }
    ensures { result ≡ capped (rise_heads (reverse heads.now) levels) }
{
    let mut left = heads;
    while let Some((head, outer)) = left.split_last() {
        levels = above(head.levels().max(levels));
        left = outer;
    }
    levels
}

/// The height of what the level holds, where the simple type at its place has this height.
fn rise(level: &Level, levels: u32) -> u32
    requires { levels ≤ 1000 }
    ensures { result ≡ capped (rise level.now levels) }
{
    among(&level.members, ending(level.heads.as_slice(), levels))
}

/// The height of what an owner's level holds, where its parameters have this height.
fn owned(owner: &Owner, levels: u32) -> u32
    requires { levels ≤ 1000 }
    ensures { result ≡ capped (owned owner.now levels) }
{
    match owner {
        Owner::Function(level) => rise(level, above(levels.max(1))),
        Owner::Block { outer, level, .. } => rise(level, above(outer.levels().max(levels.max(1)))),
    }
}

/// The height of those parameters that stay beside one more of this slot.
fn kept(before: &Parameters, slot: &Slot) -> u32
    ensures { result ≡ capped (kept_height before.now slot.now) }
{
    match slot {
        Slot::Rest => before.levels_beside_rest(),
        Slot::Positional | Slot::Optional | Slot::KeyRest | Slot::Key { .. } => before.levels(),
    }
}

/// The height of what stands around a bracket, where the type in it has this height.
fn held(frame: &Frame, levels: u32) -> u32
    requires { levels ≤ 1000 }
    ensures { result ≡ capped (held frame.now levels) }
{
    match frame {
        Frame::Paren { outer } => rise(outer, levels),
        Frame::Arguments { done, outer, .. } => rise(outer, above(done.levels().max(levels))),
        Frame::Tuple { done, outer } => rise(outer, above(done.levels().max(levels))),
        Frame::Record { done, outer, .. } => rise(outer, above(done.levels().max(levels))),
        Frame::Parameter {
            before,
            slot,
            owner,
        } => owned(owner, kept(before.get(), slot).max(levels)),
        Frame::Block {
            inner,
            outer,
            level,
            ..
        } => {
            rise(
                level,
                above(outer.levels().max(inner.levels().max(levels).max(1))),
            )
        }
    }
}

/// The least height of what stands around the focus, in its bracket.
fn need_at(focus: &Focus) -> u32
    ensures { result ≡ capped (need_at focus.now) }
{
    match focus {
        Focus::Type { level }
        | Focus::Scope { level, .. }
        | Focus::Upper { level, .. }
        | Focus::Bare { level, .. }
        | Focus::Singleton { level }
        | Focus::SingletonOpen { level }
        | Focus::SingletonScope { level, .. }
        | Focus::SingletonUpper { level, .. }
        | Focus::Paren { level }
        | Focus::Tuple { level }
        | Focus::Record { level } => rise(level, 1),
        Focus::Key { done, level }
        | Focus::KeyQuestion { done, level }
        | Focus::KeyName { done, level, .. } => rise(level, above(done.levels().max(1))),
        Focus::Simple { ty, level } => rise(level, ty.levels()),
        Focus::Optional { ty, members } => among(members, ty.levels()),
        Focus::Function { level } => rise(level, 2),
        Focus::BlockQuestion { outer, level } | Focus::Block { outer, level, .. } => {
            rise(level, above(outer.levels().max(1)))
        }
        Focus::Headed { head, level } => rise(level, above(head.levels().max(1))),
        Focus::Parameters { owner } => owned(owner, 0),
        Focus::Parameter { before, owner }
        | Focus::ParameterQuestion { before, owner }
        | Focus::ParameterWord { before, owner, .. }
        | Focus::ParameterKey { before, owner, .. } => owned(owner, before.get().levels().max(1)),
        Focus::ParameterNamed { parameters, owner } => owned(owner, parameters.get().levels()),
        Focus::KeyRestNamed { listed, owner } | Focus::Listed { listed, owner } => {
            owned(owner, listed.levels())
        }
    }
}

/// The least number of brackets that are open at once at some place of what goes on from the state, counted up to 1000.
pub fn reach_of(state: &State) -> u32
    ensures { result ≡ capped (reach state.now) }
{
    (frames_open(state.frames.as_slice()) + focus_open(&state.focus) + forced(&state.focus)).min(
        MOST,
    )
}

/// How many brackets these frames open.
fn frames_open(frames: &[Frame]) -> u32
    ensures { result ≡ capped (frames_open (reverse frames.now)) }
{
    let mut left = frames;
    let mut opened = 0;
    while let Some((frame, outer)) = left.split_last() {
        opened = (opened + frame_open(frame)).min(MOST);
        left = outer;
    }
    opened
}

/// How many brackets a frame opens.
fn frame_open(frame: &Frame) -> u32
    ensures open { result ≡ frame_open frame.now }
    ensures few { result ≤ 2 }
{
    match frame {
        Frame::Parameter { owner, .. } => owner_open(owner) + 1,
        Frame::Paren { .. }
        | Frame::Arguments { .. }
        | Frame::Tuple { .. }
        | Frame::Record { .. }
        | Frame::Block { .. } => 1,
    }
}

/// How many brackets an owner opens besides the parentheses of its parameters.
fn owner_open(owner: &Owner) -> u32
    ensures open { result ≡ owner_open owner.now }
    ensures few { result ≤ 1 }
{
    match owner {
        Owner::Function(_) => 0,
        Owner::Block { .. } => 1,
    }
}

/// How many brackets are open around the place in the focus.
fn focus_open(focus: &Focus) -> u32
    ensures open { result ≡ focus_open focus.now }
    ensures few { result ≤ 2 }
{
    match focus {
        Focus::SingletonScope { .. }
        | Focus::SingletonUpper { .. }
        | Focus::Tuple { .. }
        | Focus::Record { .. }
        | Focus::Key { .. }
        | Focus::KeyQuestion { .. }
        | Focus::KeyName { .. }
        | Focus::Block { .. } => 1,
        Focus::Parameters { owner } | Focus::Listed { owner, .. } => owner_open(owner),
        Focus::Parameter { owner, .. }
        | Focus::ParameterQuestion { owner, .. }
        | Focus::ParameterWord { owner, .. }
        | Focus::ParameterKey { owner, .. }
        | Focus::ParameterNamed { owner, .. }
        | Focus::KeyRestNamed { owner, .. } => owner_open(owner) + 1,
        Focus::Type { .. }
        | Focus::Scope { .. }
        | Focus::Upper { .. }
        | Focus::Bare { .. }
        | Focus::Singleton { .. }
        | Focus::SingletonOpen { .. }
        | Focus::Paren { .. }
        | Focus::Simple { .. }
        | Focus::Optional { .. }
        | Focus::Function { .. }
        | Focus::BlockQuestion { .. }
        | Focus::Headed { .. } => 0,
    }
}

/// How many brackets must be opened still.
fn forced(focus: &Focus) -> u32
    ensures open { result ≡ forced focus.now }
    ensures few { result ≤ 1 }
{
    match focus {
        Focus::Singleton { .. }
        | Focus::SingletonOpen { .. }
        | Focus::Paren { .. }
        | Focus::BlockQuestion { .. } => 1,
        _ => 0,
    }
}
