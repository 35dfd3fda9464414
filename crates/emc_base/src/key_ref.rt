ghost use Rattle.std.specs.Prelude.{◌≡◌, refl};
ghost use Rattle.std.specs.Cmp.{partial_equiv_from_equiv, partial_order_from_total, eq_by_cmp_equiv};
ghost use Rattle.std.specs.Cmp.Lexicographic.{slice_cmp};
ghost use Rattle.std.specs.Ordering.{as_partial_cmp, eq_by_cmp};
ghost use Rattle.emc_base.specs.KeyRefs.{part_of};
ghost use Rattle.emc_base.specs.Order.{value_cmp};
ghost use Rattle.emc_base.specs.OrderLaws.{key_cmp_total};
ghost use Rattle.emc_base.specs.ValueRefs.{shown_value};

use crate::value::{Key, Value};
use crate::value_ref::ValueRef;
use std::cmp::Ordering;
use std::marker::Model;

/// A key that is lent, with its first two parts beside it: most keys are told apart by these, without a look at the key, which lies
/// elsewhere in memory. Contracts see it as the key.
#[derive(Drop)]
pub struct KeyRef<'k> {
    first: ValueRef<'k>,
    second: ValueRef<'k>,
    parts: &'k [Value],
}

impl<'k> Model for KeyRef<'k> {
    ghost use Rattle.std.specs.Prelude.{List, ◌≡◌};
    ghost use Rattle.emc_base.specs.declared.value.Value.{Value as PartValue};
    ghost use Rattle.emc_base.specs.KeyRefs.{part_of};
    ghost use Rattle.emc_base.specs.ValueRefs.{shown_value};

    ghost Value = { List PartValue };

    ghost view = { λ s. s.parts.now };

    ghost invariant = { λ s. (shown_value s.first ≡ part_of s.parts.now 0) × (shown_value s.second ≡ part_of s.parts.now 1) };
}

impl<'k> KeyRef<'k> {
    /// Lends a key. It takes no memory.
    pub fn of(key: &'k Key) -> KeyRef<'k>
        ensures { result ≡ key.now }
    {
        let parts = key.as_slice();
        KeyRef {
            first: part_at(parts, 0),
            second: part_at(parts, 1),
            parts,
        }
    }

    /// The order of keys. They are compared by their first two parts, and by all where these are the same.
    #[inline]
    pub fn compare(&self, other: &KeyRef<'_>) -> Ordering
        ensures { result ≡ slice_cmp value_cmp self.now other.now }
    {
        let order = self.first.compare(&other.first);
        if order.is_ne() {
            return order;
        }
        let order = self.second.compare(&other.second);
        if order.is_ne() {
            return order;
        }
        self.parts.cmp(other.parts)
    }
}

// Lends the part of a key at a place; null where it has none.
fn part_at(parts: &[Value], place: usize) -> ValueRef<'_>
    ensures { shown_value result ≡ part_of parts.now place }
{
    match parts.get(place) {
        Some(part) => part.lend(),
        None => ValueRef::Null,
    }
}

impl<'k> PartialEq for KeyRef<'k> {
    ghost eq = { eq_by_cmp (slice_cmp value_cmp) };

    ghost laws = { partial_equiv_from_equiv (eq_by_cmp_equiv key_cmp_total) };

    fn eq(&self, other: &KeyRef<'k>) -> bool {
        self.compare(other).is_eq()
    }
}

impl<'k> Eq for KeyRef<'k> {
    ghost laws = { eq_by_cmp_equiv key_cmp_total };
}

impl<'k> PartialOrd for KeyRef<'k> {
    ghost partial_cmp = { as_partial_cmp (slice_cmp value_cmp) };

    ghost laws = { partial_order_from_total key_cmp_total };

    fn partial_cmp(&self, other: &KeyRef<'k>) -> Option<Ordering> {
        Some(self.compare(other))
    }
}

/// The order of keys.
impl<'k> Ord for KeyRef<'k> {
    ghost cmp = { slice_cmp value_cmp };

    ghost total = { key_cmp_total };

    ghost matches_partial_cmp = { λ a b. refl };

    ghost matches_eq = { λ a b. refl };

    fn cmp(&self, other: &KeyRef<'k>) -> Ordering {
        self.compare(other)
    }
}
