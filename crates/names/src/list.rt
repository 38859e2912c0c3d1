//! Items that have names, kept in order, and whether a name is new among theirs.

ghost use Rattle.std.specs.Prelude.{◌≡◌, [], ◌∷◌, ◌++◌, map, drop, not, IsTrue, ◌↔◌, OnOk, OnErr};
ghost use Rattle.names.specs.Places.{is_among, AreSameNames};

use crate::Named;
use crate::far::FarNames;
use plain_data::{Many, NoMemory, Word};
use std::alloc::Global;
use std::marker::Model;

/// How many items are looked through one by one. Most lists have no more, and then take no memory but for the items.
const FEW: usize = 16;

/// Items in the order in which they were added, which contracts see as their list.
///
/// Whether a name is new takes constant time, whatever the number of items: the names of those behind the first [`FEW`] are kept apart.
#[derive(Drop)]
pub struct NamedList<T: Named> {
    items: Many<T>,
    later: FarNames,
}

impl<T: Named> Model for NamedList<T> {
    ghost use Rattle.std.specs.Prelude.{List, map, drop};
    ghost use Rattle.std.specs.Coded.{coded_list};
    ghost use Rattle.names.specs.Places.{AreSameNames};

    ghost Value = { List T };

    ghost coded = { coded_list T.code };

    ghost view = { λ l. l.items };

    ghost invariant = { λ l. AreSameNames l.later (map T.name_of (drop 16 l.items)) };
}

/// An item has this name.
fn is_named<T: Named>(name: &Word, items: &[T]) -> bool
    ensures { result ≡ is_among name.now (map T.name_of items.now) }
{
    for item in items {
        if name == item.name() {
            return true;
        }
    }
    false
}

impl<T: Named> NamedList<T> {
    /// No item. Takes no memory.
    pub fn new(alloc: Global) -> NamedList<T>
        ensures { result ≡ [] }
    {
        NamedList {
            items: Many::new(alloc),
            later: FarNames::new(alloc),
        }
    }

    /// No item has this name.
    pub fn is_new(&self, name: &Word) -> bool
        ensures { result ≡ not (is_among name.now (map T.name_of self.now)) }
    {
        let items = self.items.as_slice();
        !is_named(name, &items[..items.len().min(FEW)]) && !self.later.contains(name)
    }

    /// There is no item.
    pub fn is_empty(&self) -> bool
        ensures { IsTrue result ↔ (self.now ≡ []) }
    {
        self.items.is_empty()
    }

    /// The items, moved.
    pub fn into_items(self) -> Many<T>
        ensures { result ≡ self }
    {
        let NamedList { items, .. } = self;
        items
    }
}

/// Adds one more at the end, and its name to those that are kept, where it isn't one of the first [`FEW`].
fn push_named<T: Named + Drop>(
    items: &mut Many<T>,
    later: &mut FarNames,
    item: T,
) -> Result<(), NoMemory>
    requires { AreSameNames later.old (map T.name_of (drop 16 items.old)) }
    ensures ok { OnOk result (items.new ≡ items.old ++ item ∷ []) }
    ensures err { OnErr result (items.new ≡ items.old) }
    ensures same { AreSameNames later.new (map T.name_of (drop 16 items.new)) }
{
    if items.len() < FEW {
        items.push(item)?;
        return Ok(());
    }
    let name = item.name().clone()?;
    items.push(item)?;
    match later.add(name) {
        Ok(_) => Ok(()),
        Err(refused) => {
            items.pop();
            Err(refused)
        }
    }
}

impl<T: Named + Drop> NamedList<T> {
    /// Adds one more at the end. Where there is no memory for it, it is dropped, and the list stays as it was.
    pub fn push(&mut self, item: T) -> Result<(), NoMemory>
        ensures ok { OnOk result (self.new ≡ self.old ++ item ∷ []) }
        ensures err { OnErr result (self.new ≡ self.old) }
    {
        push_named(&mut self.items, &mut self.later, item)
    }
}

#[cfg(test)]
mod tests {
    use super::*;

    #[test]
    fn tells_each_name_that_is_there(rt: HostRuntime) -> Result<(), NoMemory> {
        let alloc = rt.alloc();
        let mut names = NamedList::new(alloc);
        for count in 0..2 * FEW {
            let name = Word::of(alloc, &format!(in alloc; "name{count}")?)?;
            assert!(rt; names.is_new(&name), "{count} before it is there");
            names.push(name)?;
            for other in 0..2 * FEW {
                let other_name = Word::of(alloc, &format!(in alloc; "name{other}")?)?;
                assert_eq!(rt;
                    names.is_new(&other_name),
                    other > count,
                    "{other} of {count}"
                );
            }
        }
        assert_eq!(rt; names.into_items().len(), 2 * FEW);
        Ok(())
    }
}
