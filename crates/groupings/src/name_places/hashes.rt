ghost use Rattle.std.specs.Prelude.{◌≡◌, map};
ghost use Rattle.groupings.specs.name_places.Hashes.{drawn_from, fed_all, initial_hasher};

use crate::name_places::named::Named;
use core::hash::{DefaultHasher, keyed_hasher};
use std::hash::{BuildHasher, Hash, Hasher};

/// How the names of a list are hashed: under two keys that are drawn from all of them, so that no names can be picked for their
/// hashes alone.
#[derive(Clone, Copy)]
pub struct NameHashes {
    key0: u64,
    key1: u64,
}

impl NameHashes {
    /// With the keys that are drawn from these names.
    pub fn of<T: Named>(items: &[T]) -> NameHashes
        ensures { result ≡ drawn_from (map T.name_in items.now) }
    {
        let mut hasher = all_names(items);
        let key0 = hasher.finish();
        hasher.write_u8(0);
        NameHashes {
            key0,
            key1: hasher.finish(),
        }
    }
}

impl BuildHasher for NameHashes {
    type Hasher = DefaultHasher;

    ghost build_hasher = { initial_hasher };

    fn build_hasher(&self) -> DefaultHasher {
        keyed_hasher(self.key0, self.key1)
    }
}

// A hasher with a fixed key that took in all names.
fn all_names<T: Named>(items: &[T]) -> DefaultHasher
    ensures { result ≡ fed_all (map T.name_in items.now) }
{
    let mut hasher = DefaultHasher::new();
    for item in items {
        item.name().as_str().hash(&mut hasher);
    }
    hasher
}
