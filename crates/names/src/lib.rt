//! Names in the order of their first appearance, each found by its place in constant time.
#![tactic(auto)]

ghost use Rattle.std.specs.Prelude.{◌≡◌, ◌∷◌, ◌++◌, [], length, OnErr, IfOk, MatchBool, IsTrue, ◌↔◌, true, false};
ghost use Rattle.names.specs.Places.{place_of, is_among};

mod far;
mod list;
mod named;

use indexmap::IndexSet;
pub use list::NamedList;
pub use named::{Named, all_among, names_of};
use plain_data::{NoMemory, Word};
use std::alloc::Global;
use std::marker::Model;

/// Distinct names in the order in which they were added, which contracts see as their list.
///
/// Adding a name and finding its place take constant time, whatever the number of names.
#[derive(Debug, Drop)]
pub struct Names {
    words: IndexSet<Word>,
}

impl Model for Names {
    ghost use Rattle.std.specs.Prelude.{List, ℕ};

    ghost Value = { List (List ℕ) };

    ghost view = { λ n. n.words.keys };
}

impl Names {
    /// No names. Takes no memory.
    pub fn new(alloc: Global) -> Names
        ensures { result ≡ [] }
    {
        Names {
            words: IndexSet::new(alloc),
        }
    }

    /// How many names there are.
    pub fn len(&self) -> usize
        ensures { result ≡ length self.now }
    {
        self.words.len()
    }

    /// There is no name.
    pub fn is_empty(&self) -> bool
        ensures { IsTrue result ↔ (self.now ≡ []) }
    {
        self.words.is_empty()
    }

    /// Adds a name at the end and answers true, or answers false where the name is there already.
    /// Where there is no memory, the names stay as they were.
    pub fn add(&mut self, name: Word) -> Result<bool, NoMemory>
        ensures added { IfOk result (λ added. MatchBool added
            ((is_among name self.old ≡ false) × (self.new ≡ self.old ++ name ∷ []))
            ((is_among name self.old ≡ true) × (self.new ≡ self.old))) }
        ensures err { OnErr result (self.new ≡ self.old) }
    {
        let (_, added) = self.words.insert_full(name)?;
        Ok(added)
    }

    /// Whether a name is there.
    pub fn contains(&self, name: &Word) -> bool
        ensures { result ≡ is_among name.now self.now }
    {
        self.words.contains(name)
    }

    /// The place of a name in the list, from 0, or `None` where it is not there.
    pub fn place_of(&self, name: &Word) -> Option<usize>
        ensures { result ≡ place_of name.now self.now }
    {
        self.words.get_index_of(name)
    }
}

#[cfg(test)]
mod tests {
    use super::*;

    #[test]
    fn keeps_the_first_of_equal_names(rt: HostRuntime) -> Result<(), NoMemory> {
        let alloc = rt.alloc();
        let mut names = Names::new(alloc);
        assert!(rt; names.is_empty());
        for (name, added) in [("b", true), ("a", true), ("b", false), ("ab", true)] {
            assert_eq!(rt; names.add(Word::of(alloc, name)?)?, added, "{name}");
        }
        assert_eq!(rt; names.len(), 3);
        for (name, place) in [("b", Some(0)), ("a", Some(1)), ("ab", Some(2)), ("c", None)] {
            let word = Word::of(alloc, name)?;
            assert_eq!(rt; names.place_of(&word), place, "{name}");
        }
        Ok(())
    }
}
