ghost use Rattle.std.specs.Prelude.{◌≡◌, refl};
ghost use Rattle.std.specs.Cmp.{IsTotalOrder, partial_equiv_from_equiv, partial_order_from_total, eq_by_cmp_equiv};
ghost use Rattle.std.specs.Cmp.Lexicographic.{slice_cmp};
ghost use Rattle.std.specs.FinMap.{IsAntisymmetric};
ghost use Rattle.std.specs.Ordering.{as_partial_cmp, eq_by_cmp};
ghost use Rattle.emc_base.specs.Order.{rank_of, value_cmp};
ghost use Rattle.emc_base.specs.OrderLaws.{key_cmp_total, value_cmp_total};

use crate::seq::Seq;
use crate::value::{Key, Value};
use std::cmp::Ordering;

/// The law of the orders of values and of keys: each is total, and tells different ones apart.
pub fn order_is_total()
    ensures values { IsTotalOrder value_cmp }
    ensures values_apart { IsAntisymmetric value_cmp }
    ensures keys { IsTotalOrder (slice_cmp value_cmp) }
    ensures keys_apart { IsAntisymmetric (slice_cmp value_cmp) }
{}

/// The order of values: null, whole numbers, flags, texts, byte lists; then numbers by size, false before true, texts
/// and byte lists by their bytes.
pub fn compare(a: &Value, b: &Value) -> Ordering
    ensures { result ≡ value_cmp a.now b.now }
{
    match (a, b) {
        (Value::Whole(x), Value::Whole(y)) => x.cmp(y),
        (Value::Flag(x), Value::Flag(y)) => x.cmp(y),
        (Value::Text(x), Value::Text(y)) => x.as_str().cmp(y.as_str()),
        (Value::Bytes(x), Value::Bytes(y)) => x.as_slice().cmp(y.as_slice()),
        _ => rank(a).cmp(&rank(b)),
    }
}

// The place of a value's variant in the order.
fn rank(value: &Value) -> u8
    ensures { result ≡ rank_of value.now }
{
    match value {
        Value::Null => 0,
        Value::Whole(_) => 1,
        Value::Flag(_) => 2,
        Value::Text(_) => 3,
        Value::Bytes(_) => 4,
    }
}

/// Keys are ordered part by part; a key that another begins with comes before it.
pub fn compare_keys(a: &Key, b: &Key) -> Ordering
    ensures { result ≡ slice_cmp value_cmp a.now b.now }
{
    a.as_slice().cmp(b.as_slice())
}

impl PartialEq for Value {
    ghost eq = { eq_by_cmp value_cmp };

    ghost laws = { partial_equiv_from_equiv (eq_by_cmp_equiv value_cmp_total) };

    fn eq(&self, other: &Value) -> bool {
        compare(self, other).is_eq()
    }
}

impl Eq for Value {
    ghost laws = { eq_by_cmp_equiv value_cmp_total };
}

impl PartialOrd for Value {
    ghost partial_cmp = { as_partial_cmp value_cmp };

    ghost laws = { partial_order_from_total value_cmp_total };

    fn partial_cmp(&self, other: &Value) -> Option<Ordering> {
        Some(compare(self, other))
    }
}

/// The order of [`compare`].
impl Ord for Value {
    ghost cmp = { value_cmp };

    ghost total = { value_cmp_total };

    ghost matches_partial_cmp = { λ a b. refl };

    ghost matches_eq = { λ a b. refl };

    fn cmp(&self, other: &Value) -> Ordering {
        compare(self, other)
    }
}

impl PartialEq for Seq<Value> {
    ghost eq = { eq_by_cmp (slice_cmp value_cmp) };

    ghost laws = { partial_equiv_from_equiv (eq_by_cmp_equiv key_cmp_total) };

    fn eq(&self, other: &Key) -> bool {
        compare_keys(self, other).is_eq()
    }
}

impl Eq for Seq<Value> {
    ghost laws = { eq_by_cmp_equiv key_cmp_total };
}

impl PartialOrd for Seq<Value> {
    ghost partial_cmp = { as_partial_cmp (slice_cmp value_cmp) };

    ghost laws = { partial_order_from_total key_cmp_total };

    fn partial_cmp(&self, other: &Key) -> Option<Ordering> {
        Some(compare_keys(self, other))
    }
}

/// The order of [`compare_keys`].
impl Ord for Seq<Value> {
    ghost cmp = { slice_cmp value_cmp };

    ghost total = { key_cmp_total };

    ghost matches_partial_cmp = { λ a b. refl };

    ghost matches_eq = { λ a b. refl };

    fn cmp(&self, other: &Key) -> Ordering {
        compare_keys(self, other)
    }
}
