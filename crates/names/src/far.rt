//! Names in memory of their own, so that what holds none is small.

ghost use Rattle.std.specs.Prelude.{◌≡◌, [], ◌∷◌, ◌++◌, OnErr, IfOk, MatchBool, true, false};
ghost use Rattle.names.specs.Places.{is_among};

use crate::Names;
use plain_data::{NoMemory, Word};
use std::alloc::Global;
use std::marker::Model;

/// Distinct names, which contracts see as their list, as [`Names`] are. They take no memory of their own until one is added.
#[derive(Drop)]
pub struct FarNames {
    names: Option<Box<Names>>,
    alloc: Global,
}

impl Model for FarNames {
    ghost use Rattle.std.specs.Prelude.{List, [], ℕ};
    ghost use Rattle.std.specs.Option.{option_map, unwrap_or};

    ghost Value = { List (List ℕ) };

    ghost view = { λ n. unwrap_or (option_map (λ b. b.value) n.names) [] };
}

impl FarNames {
    /// No names. Takes no memory.
    pub fn new(alloc: Global) -> FarNames
        ensures { result ≡ [] }
    {
        FarNames { names: None, alloc }
    }

    /// Adds a name at the end and answers true, or answers false where the name is there already.
    /// Where there is no memory, the names stay as they were.
    pub fn add(&mut self, name: Word) -> Result<bool, NoMemory>
        ensures added { IfOk result (λ added. MatchBool added
            ((is_among name self.old ≡ false) × (self.new ≡ self.old ++ name ∷ []))
            ((is_among name self.old ≡ true) × (self.new ≡ self.old))) }
        ensures err { OnErr result (self.new ≡ self.old) }
    {
        let mut names = match self.names.take() {
            Some(names) => names,
            None => Box::new(self.alloc, Names::new(self.alloc))?,
        };
        let added = names.add(name);
        self.names = Some(names);
        added
    }

    /// Whether a name is there.
    pub fn contains(&self, name: &Word) -> bool
        ensures { result ≡ is_among name.now self.now }
    {
        match &self.names {
            Some(names) => names.contains(name),
            None => false,
        }
    }
}
