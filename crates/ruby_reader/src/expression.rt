//! An expression, with the calls in it that are still open.

ghost use Rattle.std.specs.Prelude.{◌≡◌, [], ◌∷◌, IfOk};
ghost use Rattle.ruby_reader.specs.ExpressionMachine as machine;

use crate::frames::{Call, Frame, Stack, Target};
use crate::progress::Turn;
use crate::tall::{Row, Tall};
use crate::tree::Literal;
use plain_data::{NoMemory, Word};
use profile_words::is_callable;
use ruby_tokens::{Kind, Token};
use std::alloc::Global;

/// What stands between an expression and the place behind it.
#[derive(Clone, Copy, Debug, Drop)]
pub enum Way {
    Here,
    /// Newlines.
    Line,
    /// Newlines, and a comment that stands for nothing only where a dot follows.
    Noted,
}

/// Where an expression was read up to.
#[derive(Drop)]
pub enum ExpressionPlace {
    /// In front of an expression, where newlines are skipped.
    Before,
    /// Behind the parenthesis that opens the arguments of this call.
    Opened(Call),
    /// Behind what a call may be made on.
    Behind(Target, Way),
    /// Behind a dot.
    Dot(Target),
    /// Behind the name of a call.
    Called(Call),
}

/// An expression that is being read.
#[derive(Drop)]
pub struct ExpressionReader {
    pub frames: Stack,
    pub place: ExpressionPlace,
}

/// What a token makes of an expression: the reader wants more, or the expression ends in front of the token.
#[derive(Drop)]
pub enum Outcome {
    Reading(ExpressionReader),
    Ended(Tall, Turn),
}

fn reading(frames: Stack, place: ExpressionPlace) -> Option<Outcome>
    ensures { result ≡ machine.reading frames place }
{
    Some(Outcome::Reading(ExpressionReader { frames, place }))
}

/// The operand that a token is or begins, if it is one.
pub fn operand_of(kind: &Kind) -> Result<Option<Target>, NoMemory>
    ensures { IfOk result (λ o. o ≡ machine.operand_of kind.now) }
{
    let value = match kind {
        Kind::Integer(value) => Tall::literal(Literal::Int(*value)),
        Kind::Text(value) => Tall::literal(Literal::Str(value.clone()?)),
        Kind::Symbol(name) => Tall::literal(Literal::Sym(name.clone()?)),
        Kind::Nil => Tall::literal(Literal::Nil),
        Kind::Name(name) => Tall::local(name.clone()?),
        Kind::Upper(name) => return Ok(Some(Target::Class(name.clone()?))),
        _ => return Ok(None),
    };
    Ok(Some(Target::Value(value)))
}

fn before(frames: Stack, kind: &Kind) -> Result<Option<Outcome>, NoMemory>
    ensures { IfOk result (λ o. o ≡ machine.before frames kind.now) }
{
    match kind {
        Kind::Newline | Kind::TypeNote => Ok(reading(frames, ExpressionPlace::Before)),
        _ => match operand_of(kind)? {
            Some(target) => Ok(reading(frames, ExpressionPlace::Behind(target, Way::Here))),
            None => Ok(None),
        },
    }
}

fn with_made(frames: Stack, value: Option<Tall>) -> Option<Outcome>
    ensures { result ≡ machine.with_made frames value }
{
    match value {
        Some(value) => reading(
            frames,
            ExpressionPlace::Behind(Target::Value(value), Way::Here),
        ),
        None => None,
    }
}

fn opened(
    alloc: Global,
    frames: Stack,
    call: Call,
    kind: &Kind,
) -> Result<Option<Outcome>, NoMemory>
    ensures { IfOk result (λ o. o ≡ machine.opened frames call kind.now) }
{
    match kind {
        Kind::Close => Ok(with_made(frames, call.made(alloc, Row::new(alloc))?)),
        Kind::Newline | Kind::TypeNote => Ok(reading(frames, ExpressionPlace::Opened(call))),
        _ => match operand_of(kind)? {
            Some(target) => {
                let frame = Frame {
                    call,
                    arguments: Row::new(alloc),
                };
                Ok(reading(
                    frames.with(frame)?,
                    ExpressionPlace::Behind(target, Way::Here),
                ))
            }
            None => Ok(None),
        },
    }
}

fn may_call(target: &Target, name: &Word) -> bool
    ensures { result ≡ machine.may_call target.now name.now }
{
    match target {
        Target::Value(_) => is_callable(name),
        Target::Class(_) => name.as_str() == "new",
    }
}

fn dotted(frames: Stack, target: Target, token: &Token) -> Result<Option<Outcome>, NoMemory>
    ensures { IfOk result (λ o. o ≡ machine.dotted frames target token.now.kind token.now.start token.now.end) }
{
    match &token.kind {
        Kind::Newline | Kind::TypeNote => Ok(reading(frames, ExpressionPlace::Dot(target))),
        Kind::Name(name) => {
            if may_call(&target, name) {
                let call = Call {
                    target,
                    name: name.clone()?,
                    start: token.start,
                    end: token.end,
                };
                Ok(reading(frames, ExpressionPlace::Called(call)))
            } else {
                Ok(None)
            }
        }
        _ => Ok(None),
    }
}

fn lined(way: Way) -> Way
    ensures { result ≡ machine.lined way }
{
    match way {
        Way::Noted => Way::Noted,
        Way::Here | Way::Line => Way::Line,
    }
}

fn dot_here(frames: Stack, target: Target, way: Way) -> Option<Outcome>
    ensures { result ≡ machine.dot_here frames target way }
{
    match way {
        Way::Here => reading(frames, ExpressionPlace::Dot(target)),
        Way::Line | Way::Noted => None,
    }
}

fn ended(value: Tall, way: Way) -> Option<Outcome>
    ensures { result ≡ machine.ended value way }
{
    match way {
        Way::Here => Some(Outcome::Ended(value, Turn::Taken)),
        Way::Line => Some(Outcome::Ended(value, Turn::Free)),
        Way::Noted => None,
    }
}

fn comma(frames: Stack, way: Way) -> Option<Outcome>
    ensures { result ≡ machine.comma frames way }
{
    match way {
        Way::Here => reading(frames, ExpressionPlace::Before),
        Way::Line | Way::Noted => None,
    }
}

fn in_frame(
    alloc: Global,
    frame: Frame,
    frames: Stack,
    value: Tall,
    way: Way,
    kind: &Kind,
) -> Result<Option<Outcome>, NoMemory>
    ensures { IfOk result (λ o. o ≡ machine.in_frame frame frames value way kind.now) }
{
    let Frame { call, arguments } = frame;
    match kind {
        Kind::Comma => {
            let frame = Frame {
                call,
                arguments: arguments.with(value)?,
            };
            Ok(comma(frames.with(frame)?, way))
        }
        Kind::Close => Ok(with_made(frames, call.made(alloc, arguments.with(value)?)?)),
        _ => Ok(None),
    }
}

fn ends(
    alloc: Global,
    frames: Stack,
    target: Target,
    way: Way,
    kind: &Kind,
) -> Result<Option<Outcome>, NoMemory>
    ensures { IfOk result (λ o. o ≡ machine.ends_on frames target way kind.now) }
{
    let mut frames = frames;
    match target {
        Target::Value(value) => match frames.pop() {
            Some(frame) => in_frame(alloc, frame, frames, value, way, kind),
            None => Ok(ended(value, way)),
        },
        Target::Class(_) => Ok(None),
    }
}

fn behind(
    alloc: Global,
    frames: Stack,
    target: Target,
    way: Way,
    kind: &Kind,
) -> Result<Option<Outcome>, NoMemory>
    ensures { IfOk result (λ o. o ≡ machine.behind frames target way kind.now) }
{
    match kind {
        Kind::Dot => Ok(dot_here(frames, target, way)),
        Kind::LeadingDot => Ok(reading(frames, ExpressionPlace::Dot(target))),
        Kind::Newline => Ok(reading(frames, ExpressionPlace::Behind(target, lined(way)))),
        Kind::TypeNote => Ok(reading(frames, ExpressionPlace::Behind(target, Way::Noted))),
        _ => ends(alloc, frames, target, way, kind),
    }
}

fn behind_made(
    alloc: Global,
    frames: Stack,
    call: Call,
    kind: &Kind,
) -> Result<Option<Outcome>, NoMemory>
    ensures { IfOk result (λ o. o ≡ machine.behind_made frames (machine.made call []) kind.now) }
{
    match call.made(alloc, Row::new(alloc))? {
        Some(value) => behind(alloc, frames, Target::Value(value), Way::Here, kind),
        None => Ok(None),
    }
}

fn at_open(
    alloc: Global,
    opens: bool,
    frames: Stack,
    call: Call,
) -> Result<Option<Outcome>, NoMemory>
    ensures { IfOk result (λ o. o ≡ machine.at_open opens frames call (machine.behind_made frames (machine.made call []) Kind.Open)) }
{
    if opens {
        Ok(reading(frames, ExpressionPlace::Opened(call)))
    } else {
        behind_made(alloc, frames, call, &Kind::Open)
    }
}

fn after_name(
    alloc: Global,
    frames: Stack,
    call: Call,
    token: &Token,
) -> Result<Option<Outcome>, NoMemory>
    ensures { IfOk result (λ o. o ≡ machine.after_name frames call token.now.kind token.now.start) }
{
    match &token.kind {
        Kind::Open => at_open(alloc, token.start == call.end, frames, call),
        _ => behind_made(alloc, frames, call, &token.kind),
    }
}

fn final_behind(target: Target, way: Way) -> Option<Tall>
    ensures { result ≡ machine.final_behind target way }
{
    match target {
        Target::Value(value) => match way {
            Way::Here | Way::Line => Some(value),
            Way::Noted => None,
        },
        Target::Class(_) => None,
    }
}

fn final_at(alloc: Global, place: ExpressionPlace) -> Result<Option<Tall>, NoMemory>
    ensures { IfOk result (λ o. o ≡ machine.final_at place) }
{
    match place {
        ExpressionPlace::Behind(target, way) => Ok(final_behind(target, way)),
        ExpressionPlace::Called(call) => call.made(alloc, Row::new(alloc)),
        ExpressionPlace::Before | ExpressionPlace::Opened(_) | ExpressionPlace::Dot(_) => Ok(None),
    }
}

impl ExpressionReader {
    /// In front of an expression that may begin on a later line.
    pub fn new(alloc: Global) -> ExpressionReader
        ensures { result ≡ machine.start }
    {
        ExpressionReader {
            frames: Stack::new(alloc),
            place: ExpressionPlace::Before,
        }
    }

    /// Behind the first operand of an expression.
    pub fn behind(alloc: Global, operand: Target) -> ExpressionReader
        ensures { result ≡ machine.operand operand }
    {
        ExpressionReader {
            frames: Stack::new(alloc),
            place: ExpressionPlace::Behind(operand, Way::Here),
        }
    }

    /// Takes the next token, if the expression may go on with it or end in front of it.
    pub fn next(self, alloc: Global, token: &Token) -> Result<Option<Outcome>, NoMemory>
        ensures { IfOk result (λ o. o ≡ machine.expression_next self token.now) }
    {
        let ExpressionReader { frames, place } = self;
        match place {
            ExpressionPlace::Before => before(frames, &token.kind),
            ExpressionPlace::Opened(call) => opened(alloc, frames, call, &token.kind),
            ExpressionPlace::Behind(target, way) => behind(alloc, frames, target, way, &token.kind),
            ExpressionPlace::Dot(target) => dotted(frames, target, token),
            ExpressionPlace::Called(call) => after_name(alloc, frames, call, token),
        }
    }

    /// The expression, if it may end here.
    pub fn finish(self, alloc: Global) -> Result<Option<Tall>, NoMemory>
        ensures { IfOk result (λ o. o ≡ machine.expression_final self) }
    {
        let ExpressionReader { mut frames, place } = self;
        match frames.pop() {
            Some(_) => Ok(None),
            None => final_at(alloc, place),
        }
    }
}
