ghost use Rattle.std.specs.Prelude.{◌≡◌, ◌↔◌, ◌⊎◌, ◌≤ℤ◌, ◌+ℤ◌, pos, unwrap_or, IsTrue, IfOk};
ghost use Rattle.csdl_types.specs.Numbers.{numbers_of, under_of, under_simple};
ghost use Rattle.csdl_types.specs.PropTypes.{IsOutside};

use crate::simple::{Simple, simple_of};
use csdl_names::{RawEnum, RawMember};
use emc_base::{Memory, Under};
use std::alloc::Global;

/// The type that underlies an enumeration: `Int32` where none is named, and `None` exactly where the named one can't.
pub fn under_of(enumeration: &RawEnum) -> Option<Under>
    ensures { result ≡ under_of enumeration.now }
{
    match &enumeration.underlying {
        None => Some(Under::Int32),
        Some(name) => under_simple(simple_of(name.as_str())?),
    }
}

fn under_simple(simple: Simple) -> Option<Under>
    ensures { result ≡ under_simple simple }
{
    match simple {
        Simple::Byte => Some(Under::Byte),
        Simple::Int16 => Some(Under::Int16),
        Simple::Int32 => Some(Under::Int32),
        Simple::Int64 => Some(Under::Int64),
        Simple::Boolean | Simple::Text | Simple::Binary => None,
    }
}

/// The numbers of an enumeration's members: each is one more than the one before it, from 0, where none is given.
pub fn numbers_of(alloc: Global, enumeration: &RawEnum) -> Result<Vec<i128>, Memory>
    ensures { IfOk result (λ numbers. numbers.items ≡ numbers_of enumeration.now) }
{
    let mut numbers = Vec::new(alloc);
    let mut next: i128 = 0;
    for member in enumeration.members.as_slice() {
        let number = number_at(member, next);
        numbers.push(number)?;
        next = one_more(number);
    }
    Ok(numbers)
}

// The number of a member, where this one is next.
fn number_at(member: &RawMember, next: i128) -> i128
    ensures number { result ≡ unwrap_or member.now.value next }
    ensures upto { (result ≡ next) ⊎ (result ≤ℤ pos 9223372036854775807) }
{
    match member.value {
        Some(number) => i128::from(number),
        None => next,
    }
}

// One more than a number that isn't far past those of 64 bits.
fn one_more(number: i128) -> i128
    requires { number ≤ℤ pos 9223372041149743103 }
    ensures { result ≡ number +ℤ pos 1 }
{
    number + 1
}

/// Whether the number of a member lies outside of what underlies the enumeration.
pub(crate) fn is_outside(under: Under, number: &i128) -> bool
    ensures { IsTrue result ↔ IsOutside under number.now }
{
    let (least, most) = match under {
        Under::Byte => (0, 255),
        Under::Int16 => (-32_768, 32_767),
        Under::Int32 => (-2_147_483_648, 2_147_483_647),
        Under::Int64 => (-9_223_372_036_854_775_808, 9_223_372_036_854_775_807),
    };
    *number < least || *number > most
}
