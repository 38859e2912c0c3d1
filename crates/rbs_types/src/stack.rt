//! A stack.

ghost use Rattle.std.specs.Prelude.{◌≡◌, [], ◌∷◌, ◌↔◌, reverse, IsTrue, IfOk, MatchOption};

use plain_data::{Many, NoMemory};
use std::alloc::Global;
use std::marker::Model;

/// A stack, which contracts see as the list of its elements from the top on.
#[derive(Debug, Drop)]
pub struct Stack<T> {
    items: Many<T>,
}

impl<T> Model for Stack<T> {
    ghost use Rattle.std.specs.Prelude.{List};
    ghost use Rattle.std.specs.Coded.{coded_list};

    ghost Value = { List T };

    ghost coded = { coded_list T.code };

    ghost use Rattle.std.specs.Prelude.{reverse};

    ghost view = { λ s. reverse s.items };
}

impl<T> Stack<T> {
    /// No element. Takes no memory.
    pub fn new(alloc: Global) -> Stack<T>
        ensures { result ≡ [] }
    {
        Stack {
            items: Many::new(alloc),
        }
    }

    /// There is no element.
    pub fn is_empty(&self) -> bool
        ensures { IsTrue result ↔ (self.now ≡ []) }
    {
        self.items.is_empty()
    }

    /// All elements, from the bottom on.
    #[tactic(auto, using(std::proofs::lemmas::Grind::common_steps))]
    pub fn as_slice(&self) -> &[T]
        ensures { result.now ≡ reverse self.now }
    {
        self.items.as_slice()
    }

    /// Moves the top out, or answers `None` where there is none. Takes no memory.
    pub fn pop(&mut self) -> Option<T>
        ensures { MatchOption result ((self.old ≡ []) × (self.new ≡ [])) (λ top. self.old ≡ top ∷ self.new) }
    {
        self.items.pop()
    }
}

impl<T: Drop> Stack<T> {
    /// Puts an element on top. Where there is no memory for it, all is dropped.
    pub fn with(self, top: T) -> Result<Stack<T>, NoMemory>
        ensures { IfOk result (λ s. s ≡ top ∷ self) }
    {
        let Stack { mut items } = self;
        items.push(top)?;
        Ok(Stack { items })
    }
}
