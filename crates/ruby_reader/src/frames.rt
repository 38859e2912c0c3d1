//! Calls that are being read.

ghost use Rattle.std.specs.Prelude.{◌≡◌, [], ◌∷◌, ◌++◌, IfOk, MatchOption};
ghost use Rattle.ruby_reader.specs.ExpressionMachine as machine;

use crate::tall::{Row, Tall};
use plain_data::{Many, NoMemory, Word};
use std::alloc::Global;
use std::marker::Model;

/// What a call is made on: a value, or a class, of which `new` makes an object.
#[derive(Drop)]
pub enum Target {
    Value(Tall),
    Class(Word),
}

/// A call, up to its name. The name's token runs from the byte `start` to the byte before `end`.
#[derive(Drop)]
pub struct Call {
    pub target: Target,
    pub name: Word,
    pub start: u32,
    pub end: u32,
}

/// A call whose parenthesis is open, with the arguments that a comma follows.
#[derive(Drop)]
pub struct Frame {
    pub call: Call,
    pub arguments: Row,
}

/// The calls whose parenthesis is open, which contracts see as their list from the innermost on.
#[derive(Drop)]
pub struct Stack {
    calls: Many<Frame>,
}

impl Model for Stack {
    ghost use Rattle.std.specs.Prelude.{List, reverse};
    ghost use Rattle.std.specs.Coded.{codes};
    ghost use Rattle.ruby_reader.specs.declared.frames.Frame.{Frame};
    ghost use Rattle.ruby_reader.specs.contracts.tree.Expression as e;

    ghost Value = { List Frame };

    ghost coded = { Prim.hlevel (codes, e.the_row.coded) };

    ghost view = { λ s. reverse s.calls };
}

impl Stack {
    /// No call is open.
    pub fn new(alloc: Global) -> Stack
        ensures { result ≡ [] }
    {
        Stack {
            calls: Many::new(alloc),
        }
    }

    /// One more call is open.
    pub fn with(self, frame: Frame) -> Result<Stack, NoMemory>
        ensures { IfOk result (λ s. s ≡ frame ∷ self) }
    {
        let Stack { mut calls } = self;
        calls.push(frame)?;
        Ok(Stack { calls })
    }

    /// Moves the innermost call out, or answers `None` where none is open.
    pub fn pop(&mut self) -> Option<Frame>
        ensures { MatchOption result ((self.old ≡ []) × (self.new ≡ [])) (λ f. self.old ≡ f ∷ self.new) }
    {
        self.calls.pop()
    }
}

impl Call {
    /// The call with its arguments, or none where it would be too high.
    pub fn made(self, alloc: Global, arguments: Row) -> Result<Option<Tall>, NoMemory>
        ensures { IfOk result (λ o. o ≡ machine.made self arguments) }
    {
        let Call {
            target,
            name,
            start,
            end,
        } = self;
        match target {
            Target::Value(receiver) => Tall::call(alloc, receiver, name, start, end, arguments),
            Target::Class(class) => Ok(Tall::new_object(class, start, end, arguments)),
        }
    }
}
