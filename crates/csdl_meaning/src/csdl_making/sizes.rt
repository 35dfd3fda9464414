ghost use Rattle.std.specs.Prelude.{◌≡◌, ◌↔◌, ◌≤◌, ◌-◌, ◌^◌, map, min, sum_by, IsOk};
ghost use Rattle.csdl_meaning.specs.Kinds.{enum_kind, kind_of};
ghost use Rattle.csdl_meaning.specs.Meaning.{props_in};
ghost use Rattle.csdl_meaning.specs.csdl_making.Sizes.{numbers_held, numbers_in};

use csdl_names::{Lookups, RawProp};
use csdl_types::{PropType, prop_type};
use emc_base::{Kind, Memory, Seq};

/// How many numbers the kinds of all properties may hold together: 512 types of 256 properties, each of an enumeration of 1,024 numbers,
/// are kept. Each property holds a copy of its enumeration's numbers, so that without a bound a document of some MiB could ask for
/// billions: a long enumeration, and a long list of properties of that type.
const MOST_NUMBERS: u64 = 134_217_728;

/// Answers `Memory` exactly where the kinds of all properties would hold too many numbers, by the kinds of all enumerations.
pub(super) fn keep_kinds_small(lookups: &Lookups<'_>, enums: &Seq<Kind>) -> Result<(), Memory>
    requires enums { enums.now ≡ map enum_kind lookups.now.model.now.enums }
    ensures { IsOk result ↔ (numbers_held (props_in lookups.now.model.now) ≤ 134217728) }
{
    if numbers_held(lookups, enums) > MOST_NUMBERS {
        return Err(Memory);
    }
    Ok(())
}

// How many numbers the kinds of all properties hold, as far as a `u64` counts.
fn numbers_held(lookups: &Lookups<'_>, enums: &Seq<Kind>) -> u64
    requires enums { enums.now ≡ map enum_kind lookups.now.model.now.enums }
    ensures { result ≡ min (numbers_held (props_in lookups.now.model.now)) (2 ^ 64 - 1) }
{
    let mut held: u64 = 0;
    for ty in lookups.model.types.as_slice() {
        held = held.saturating_add(numbers_of_props(lookups, enums, &ty.props));
    }
    held
}

// How many those of these properties hold.
fn numbers_of_props(lookups: &Lookups<'_>, enums: &Seq<Kind>, props: &Seq<RawProp>) -> u64
    requires enums { enums.now ≡ map enum_kind lookups.now.model.now.enums }
    ensures { result ≡ min (sum_by (λ prop. numbers_in (kind_of lookups.now.model.now prop)) props.now) (2 ^ 64 - 1) }
{
    let mut held: u64 = 0;
    for prop in props.as_slice() {
        held = held.saturating_add(numbers_of_prop(lookups, enums, prop));
    }
    held
}

// How many the kind of a property holds.
fn numbers_of_prop(lookups: &Lookups<'_>, enums: &Seq<Kind>, prop: &RawProp) -> u64
    requires enums { enums.now ≡ map enum_kind lookups.now.model.now.enums }
    ensures { result ≡ numbers_in (kind_of lookups.now.model.now prop.now) }
{
    match prop_type(lookups.scope, prop.kind.as_str()) {
        Some(PropType::Enum(place)) => match enums.get(place) {
            Some(kind) => numbers_in(kind),
            None => 0,
        },
        Some(PropType::Simple(_)) => 0,
        None => 0,
    }
}

// How many numbers a kind holds.
fn numbers_in(kind: &Kind) -> u64
    ensures { result ≡ numbers_in kind.now }
{
    match kind {
        Kind::Enum(enumeration) => enumeration.members.len() as u64,
        _ => 0,
    }
}
