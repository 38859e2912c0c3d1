//! Items that have a name, and the names of several.

ghost use Rattle.std.specs.Prelude.{◌≡◌, ◌↔◌, List, ℕ, map, IfOk, MatchOption, IsTrue, true};
ghost use Rattle.std.specs.List.{IsDistinct, AllByRecursion};
ghost use Rattle.names.specs.Places.{same_name, is_among};

use crate::Names;
use plain_data::{NoMemory, Word};
use std::alloc::Global;

/// What has a name.
pub trait Named {
    ghost name_of: { Self → List ℕ };

    /// The name.
    fn name(&self) -> &Word
        ensures { result.now ≡ name_of self.now };
}

/// A word is its own name.
impl Named for Word {
    ghost name_of = { λ w. w };

    fn name(&self) -> &Word {
        self
    }
}

/// The names of these items in order, or `None` where two have one name.
pub fn names_of<T: Named>(alloc: Global, items: &[T]) -> Result<Option<Names>, NoMemory>
    ensures { IfOk result (λ found. MatchOption found (¬ (IsDistinct same_name (map T.name_of items.now)))
        (λ names. IsDistinct same_name (map T.name_of items.now) × (names ≡ map T.name_of items.now))) }
{
    let mut names = Names::new(alloc);
    for item in items {
        if !names.add(item.name().clone()?)? {
            return Ok(None);
        }
    }
    Ok(Some(names))
}

/// Whether the name of each item is among these.
pub fn all_among<T: Named>(items: &[T], names: &Names) -> bool
    ensures { IsTrue result ↔ AllByRecursion (λ n. is_among n names.now ≡ true) (map T.name_of items.now) }
{
    for item in items {
        if !names.contains(item.name()) {
            return false;
        }
    }
    true
}
