ghost use Rattle.std.specs.Prelude.{◌≡◌, map, IfOk};
ghost use Rattle.csdl_meaning.specs.Kinds.{enum_kind, kind_of, most_of, simple_kind};
ghost use Rattle.csdl_names.specs.declared.csdl_lists.raw.RawBound.TheVariants.{Number};
ghost use Rattle.csdl_meaning.specs.Rising.{rising};

use csdl_names::{Lookups, RawBound, RawEnum, RawProp};
use csdl_types::{PropType, Simple, numbers_of, prop_type, under_of};
use emc_base::{EnumKind, Kind, Memory, Seq, Under};
use std::alloc::Global;

/// The kind of a property, by those of all enumerations.
pub(super) fn kind_of(
    alloc: Global,
    lookups: &Lookups<'_>,
    enums: &Seq<Kind>,
    prop: &RawProp,
) -> Result<Kind, Memory>
    requires enums { enums.now ≡ map enum_kind lookups.now.model.now.enums }
    ensures { IfOk result (λ kind. kind ≡ kind_of lookups.now.model.now prop.now) }
{
    match prop_type(lookups.scope, prop.kind.as_str()) {
        None => Ok(Kind::Boolean),
        Some(PropType::Simple(simple)) => simple_kind(prop.bound, simple),
        Some(PropType::Enum(place)) => match enums.get(place) {
            None => Ok(Kind::Boolean),
            Some(kind) => kind.copy(alloc),
        },
    }
}

/// The kind of a simple type with a bound. A bound past those of kinds counts as want of memory; no document that keeps the rules has one.
pub fn simple_kind(bound: RawBound, simple: Simple) -> Result<Kind, Memory>
    ensures { IfOk result (λ kind. kind ≡ simple_kind bound simple) }
{
    Ok(match simple {
        Simple::Byte => Kind::Byte,
        Simple::Int16 => Kind::Int16,
        Simple::Int32 => Kind::Int32,
        Simple::Int64 => Kind::Int64,
        Simple::Boolean => Kind::Boolean,
        Simple::Text => Kind::Text(most_of(bound)?),
        Simple::Binary => Kind::Binary(most_of(bound)?),
    })
}

// How long a value may be. A bound past those of kinds counts as want of memory; no document that keeps the rules has one.
fn most_of(bound: RawBound) -> Result<Option<u32>, Memory>
    ensures { IfOk result (λ most. most ≡ most_of bound) }
{
    match bound {
        RawBound::Absent | RawBound::Max => Ok(None),
        RawBound::Number(number) => most_in(number),
    }
}

fn most_in(number: i64) -> Result<Option<u32>, Memory>
    ensures { IfOk result (λ most. most ≡ most_of (Number number)) }
{
    if number < 0 {
        return Ok(None);
    }
    match u32::try_from(number) {
        Ok(most) => Ok(Some(most)),
        Err(_) => Err(Memory),
    }
}

/// The kinds of all enumerations.
pub(super) fn enum_kinds(alloc: Global, enums: &Seq<RawEnum>) -> Result<Seq<Kind>, Memory>
    ensures { IfOk result (λ kinds. kinds ≡ map enum_kind enums.now) }
{
    let mut kinds = Seq::empty(alloc);
    for enumeration in enums.as_slice() {
        kinds.push(enum_kind(alloc, enumeration)?)?;
    }
    Ok(kinds)
}

// The kind of an enumeration.
fn enum_kind(alloc: Global, enumeration: &RawEnum) -> Result<Kind, Memory>
    ensures { IfOk result (λ kind. kind ≡ enum_kind enumeration.now) }
{
    let under = under_of(enumeration).unwrap_or(Under::Int32);
    let numbers = rising(numbers_of(alloc, enumeration)?);
    let members = members_of(alloc, numbers.as_slice())?;
    Ok(Kind::Enum(EnumKind { under, members }))
}

// Numbers in rising order, each once.
fn rising(numbers: Vec<i128>) -> Vec<i128>
    ensures { result.items ≡ rising numbers.items }
{
    let mut numbers = numbers;
    numbers.sort_unstable();
    numbers.dedup();
    numbers
}

// The same numbers in 64 bits. One that is past these counts as want of memory; no document that keeps the rules has one.
fn members_of(alloc: Global, numbers: &[i128]) -> Result<Seq<i64>, Memory>
    ensures { IfOk result (λ members. members ≡ numbers.now) }
{
    let mut members = Seq::empty(alloc);
    for number in numbers {
        members.push(member_of(*number)?)?;
    }
    Ok(members)
}

fn member_of(number: i128) -> Result<i64, Memory>
    ensures { IfOk result (λ member. member ≡ number) }
{
    match i64::try_from(number) {
        Ok(member) => Ok(member),
        Err(_) => Err(Memory),
    }
}
