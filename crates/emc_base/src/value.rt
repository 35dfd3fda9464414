ghost use Rattle.std.specs.Prelude.{◌≡◌, ◌↔◌, IfOk, IsTrue, length};
ghost use Rattle.std.specs.Str.{chars};
ghost use Rattle.emc_base.specs.Domain.{InDomain, IsText, IsWithin};

use crate::bin::Bin;
use crate::memory::Memory;
use crate::seq::Seq;
use crate::txt::Txt;
use std::alloc::Global;

/// A value of a property or a cell.
#[derive(Clone, Drop)]
pub enum Value {
    /// No value.
    Null,
    /// A whole number: of the kinds `Byte`, `Int16`, `Int32` and `Int64`.
    Whole(i64),
    /// True or false.
    Flag(bool),
    /// A text, compared by its code points.
    Text(Txt),
    /// A byte list.
    Bytes(Bin),
}

/// What a property or a column may hold, null aside. Source: the simple types and the enumerations of CSDL and the column types of
/// SSDL, version 3.
#[derive(Clone, Drop)]
pub enum Kind {
    /// A whole number from 0 to 255; the column type `tinyint`.
    Byte,
    /// A whole number of 16 bits with a sign; `smallint`.
    Int16,
    /// A whole number of 32 bits with a sign; `int`.
    Int32,
    /// A whole number of 64 bits with a sign; `bigint`.
    Int64,
    /// True or false; `bit`.
    Boolean,
    /// A text of at most so many Unicode scalar values; `nvarchar`. No number is no bound.
    Text(Option<u32>),
    /// A list of at most so many bytes; `varbinary`. No number is no bound.
    Binary(Option<u32>),
    /// A number of an enumeration. It is another kind than its underlying one, and than that of every other enumeration.
    Enum(EnumKind),
}

/// An enumeration, by its underlying kind and the numbers of its members. Source: the EnumType of CSDL, version 3.
#[derive(Clone, Drop)]
pub struct EnumKind {
    /// The kind of its numbers.
    pub under: Under,
    /// The members' numbers, in rising order, without repeats.
    pub members: Seq<i64>,
}

/// The kind of an enumeration's numbers.
#[derive(Clone, Copy, Debug, PartialEq, Eq)]
pub enum Under {
    /// From 0 to 255.
    Byte,
    /// Of 16 bits with a sign.
    Int16,
    /// Of 32 bits with a sign.
    Int32,
    /// Of 64 bits with a sign.
    Int64,
}

/// The values of a key, in the order of the key's parts.
pub type Key = Seq<Value>;

impl Value {
    /// An equal value. `Memory` comes where there is none for it.
    pub fn copy(&self, alloc: Global) -> Result<Value, Memory>
        ensures { IfOk result (λ value. value ≡ self.now) }
    {
        let _alloc = alloc;
        let value = self.clone()?;
        Ok(value)
    }
}

impl Kind {
    /// An equal kind. `Memory` comes where there is none for it.
    pub fn copy(&self, alloc: Global) -> Result<Kind, Memory>
        ensures { IfOk result (λ kind. kind ≡ self.now) }
    {
        let _alloc = alloc;
        let kind = self.clone()?;
        Ok(kind)
    }
}

impl Seq<Value> {
    /// An equal key. `Memory` comes where there is none for it.
    pub fn copy(&self, alloc: Global) -> Result<Key, Memory>
        ensures { IfOk result (λ key. key ≡ self.now) }
    {
        let _alloc = alloc;
        let key = self.clone()?;
        Ok(key)
    }
}

/// Whether the value isn't null and the kind allows it.
pub fn in_domain(value: &Value, kind: &Kind) -> bool
    ensures { IsTrue result ↔ InDomain value.now kind.now }
{
    match (value, kind) {
        (Value::Whole(number), Kind::Byte) => (0..=255).contains(number),
        (Value::Whole(number), Kind::Int16) => (-32_768..=32_767).contains(number),
        (Value::Whole(number), Kind::Int32) => (-2_147_483_648..=2_147_483_647).contains(number),
        (Value::Whole(number), Kind::Int64) => i64::MIN <= *number,
        (Value::Whole(number), Kind::Enum(set)) => set.members.as_slice().contains(number),
        (Value::Flag(_), Kind::Boolean) => true,
        (Value::Text(text), Kind::Text(bound)) => is_text(text, *bound),
        (Value::Bytes(bytes), Kind::Binary(bound)) => is_within(*bound, bytes.as_slice().len()),
        _ => false,
    }
}

fn is_text(text: &Txt, bound: Option<u32>) -> bool
    ensures { IsTrue result ↔ IsText bound text.now }
{
    is_within(bound, character_count(text.as_str()))
}

/// How many Unicode scalar values a text has.
pub fn character_count(text: &str) -> usize
    ensures { result ≡ length (chars text.now) }
{
    text.chars().count()
}

fn is_within(bound: Option<u32>, count: usize) -> bool
    ensures { IsTrue result ↔ IsWithin bound count }
{
    match bound {
        None => true,
        Some(most) => count <= most as usize,
    }
}
