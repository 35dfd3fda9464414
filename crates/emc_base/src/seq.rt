ghost use Rattle.std.specs.Prelude.{◌≡◌, ◌<◌, ◌≤◌, ◌^◌, ◌↔◌, [], ◌∷◌, ◌++◌, length, slice_get, IfOk, IsSome, OnOk, OnErr, IsTrue};
ghost use Rattle.std.specs.Option.{option_copied};
ghost use Rattle.emc_base.specs.Lists.{At};

use crate::memory::Memory;
use std::alloc::Global;
use std::marker::Model;

/// The most items that a list may hold.
pub const MOST_ITEMS: usize = 4_294_967_295;

// No clause says when a list is full, so a smaller bound would be proved too. This refuses one.
const _: () = prove!(MOST_ITEMS >= 4_294_967_295);

/// A list of at most [`MOST_ITEMS`] items, which contracts see as the list of its items.
#[derive(Clone, Drop)]
pub struct Seq<T> {
    items: Vec<T>,
}

impl<T> Model for Seq<T> {
    ghost use Rattle.std.specs.Prelude.{List, length, ◌≤◌};
    ghost use Rattle.std.specs.Coded.{coded_list};

    ghost Value = { List T };

    ghost coded = { coded_list T.code };

    ghost view = { λ s. s.items.items };

    ghost invariant = { λ s. length s.items.items ≤ 4294967295 };
}

impl<T> Seq<T> {
    /// The empty list. It takes no memory.
    pub fn empty(alloc: Global) -> Seq<T>
        ensures { result ≡ [] }
    {
        Seq {
            items: Vec::new(alloc),
        }
    }

    /// The empty list, with room for so many items, so that adding these takes no memory. `Memory` comes where there is none for it.
    pub fn with_room(alloc: Global, count: usize) -> Result<Seq<T>, Memory>
    where
        T: Drop,
        ensures { IfOk result (λ list. list ≡ []) }
    {
        Ok(Seq {
            items: Vec::with_capacity(alloc, count)?,
        })
    }

    /// The list of a vector's items. A vector of more than [`MOST_ITEMS`] items counts as want of memory.
    pub fn from_vec(items: Vec<T>) -> Result<Seq<T>, Memory>
    where
        T: Drop,
        ensures { IfOk result (λ list. list ≡ items.items) }
    {
        if items.len() > MOST_ITEMS {
            return Err(Memory);
        }
        Ok(Seq { items })
    }

    /// The items, as a vector, which is moved and not copied.
    pub fn into_vec(self) -> Vec<T>
        ensures { result.items ≡ self }
    {
        self.items
    }

    /// Adds an item at the end. A full list counts as want of memory; the item is dropped then.
    pub fn push(&mut self, item: T) -> Result<(), Memory>
    where
        T: Drop,
        ensures ok { OnOk result (self.new ≡ self.old ++ item ∷ []) }
        ensures err { OnErr result (self.new ≡ self.old) }
    {
        if self.items.len() >= MOST_ITEMS {
            return Err(Memory);
        }
        self.items.push(item)?;
        Ok(())
    }

    /// How many items there are.
    pub fn len(&self) -> usize
        ensures count { result ≡ length self.now }
        ensures bound { result < 2 ^ 32 }
    {
        self.items.len()
    }

    /// Whether there is no item.
    pub fn is_empty(&self) -> bool
        ensures { IsTrue result ↔ (self.now ≡ []) }
    {
        self.items.is_empty()
    }

    /// Lends the item at a place, counted from 0; `None` exactly where the list isn't longer than that.
    pub fn get(&self, i: usize) -> Option<&T>
        ensures item { option_copied result ≡ slice_get self.now i }
        ensures inside { IsSome result ↔ (i < length self.now) }
    {
        self.items.get(i)
    }

    /// Lends the item at a place, counted from 0.
    pub fn at(&self, i: usize) -> &T
        requires { i < length self.now }
        ensures { At self.now i result.now }
    {
        &self.as_slice()[i]
    }

    /// Lends all items in their order.
    pub fn as_slice(&self) -> &[T]
        ensures items { result.now ≡ self.now }
        ensures bound { length self.now < 2 ^ 32 }
    {
        self.items.as_slice()
    }
}
