ghost use Rattle.std.specs.Prelude.{◌≡◌, IfOk};
ghost use Rattle.emc_base.specs.Order.{rank_of, value_cmp};
ghost use Rattle.emc_base.specs.ValueRefs.{shown_value};

use crate::bin::Bin;
use crate::memory::Memory;
use crate::txt::Txt;
use crate::value::Value;
use std::alloc::Global;
use std::cmp::Ordering;

/// A value whose text or bytes are lent.
#[derive(Clone, Copy)]
pub enum ValueRef<'t> {
    /// No value.
    Null,
    /// A whole number.
    Whole(i64),
    /// True or false.
    Flag(bool),
    /// A text.
    Text(&'t str),
    /// A byte list.
    Bytes(&'t [u8]),
}

impl Value {
    /// Lends the value. It takes no memory.
    pub fn lend(&self) -> ValueRef<'_>
        ensures { shown_value result ≡ self.now }
    {
        match self {
            Value::Null => ValueRef::Null,
            Value::Whole(number) => ValueRef::Whole(*number),
            Value::Flag(flag) => ValueRef::Flag(*flag),
            Value::Text(text) => ValueRef::Text(text.as_str()),
            Value::Bytes(bytes) => ValueRef::Bytes(bytes.as_slice()),
        }
    }
}

impl<'t> ValueRef<'t> {
    /// The value that this shows. `Memory` comes where there is none for it.
    pub fn copy(&self, alloc: Global) -> Result<Value, Memory>
        ensures { IfOk result (λ value. value ≡ shown_value self.now) }
    {
        Ok(match self {
            ValueRef::Null => Value::Null,
            ValueRef::Whole(number) => Value::Whole(*number),
            ValueRef::Flag(flag) => Value::Flag(*flag),
            ValueRef::Text(text) => Value::Text(Txt::of(alloc, text)?),
            ValueRef::Bytes(bytes) => Value::Bytes(Bin::of(alloc, bytes)?),
        })
    }

    /// The order of lent values: that of the values that they show.
    #[inline]
    pub fn compare(&self, other: &ValueRef<'_>) -> Ordering
        ensures { result ≡ value_cmp (shown_value self.now) (shown_value other.now) }
    {
        match (self, other) {
            (ValueRef::Whole(x), ValueRef::Whole(y)) => x.cmp(y),
            (ValueRef::Flag(x), ValueRef::Flag(y)) => x.cmp(y),
            (ValueRef::Text(x), ValueRef::Text(y)) => x.cmp(y),
            (ValueRef::Bytes(x), ValueRef::Bytes(y)) => x.cmp(y),
            _ => self.rank().cmp(&other.rank()),
        }
    }

    // The place of a lent value's variant in the order.
    fn rank(&self) -> u8
        ensures { result ≡ rank_of (shown_value self.now) }
    {
        match self {
            ValueRef::Null => 0,
            ValueRef::Whole(_) => 1,
            ValueRef::Flag(_) => 2,
            ValueRef::Text(_) => 3,
            ValueRef::Bytes(_) => 4,
        }
    }
}
