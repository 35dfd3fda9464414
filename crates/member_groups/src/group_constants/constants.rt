ghost use Rattle.std.specs.Prelude.{◌≡◌, IfOk, length};
ghost use Rattle.round_trip.specs.Words.{Whole};
ghost use Rattle.member_groups.specs.mapping_asks.Adding.{Each, EachBelow};
ghost use Rattle.member_groups.specs.group_constants.Constants.{AddsIn, AreEmpty, AreListed, Compares, IsComparison, IsEntry, IsListOf, IsNumber, ListsGroups, NumbersOf, NumbersOfProp};

use crate::group_numbers::Numbered;
use crate::mapping_asks::{Ask, MemberId};
use edm_types::EntityModel;
use emc_base::{GroupId, Kind, Memory, PropId, Seq, Value};
use std::alloc::Global;
use std::collections::BTreeSet;

/// The constants of each group, in their order.
pub fn constants_of(
    alloc: Global,
    model: &EntityModel,
    numbered: &Numbered,
    asks: &[Ask],
    tested: &BTreeSet<u32>,
) -> Result<Seq<Seq<Value>>, Memory>
    ensures { IfOk result (ListsGroups model.now numbered.now asks.now tested.now) }
{
    let mut sets = empty_sets(alloc, numbered.numbers.count)?;
    add_compared(alloc, &mut sets, numbered, asks)?;
    add_enums(&mut sets, model, numbered, tested)?;
    lists_of(alloc, sets)
}

// So many sets of values, all of them empty.
fn empty_sets(alloc: Global, count: usize) -> Result<Vec<BTreeSet<Value>>, Memory>
    ensures { IfOk result (λ sets. AreEmpty count sets.items) }
{
    let mut sets = Vec::new(alloc);
    for _ in 0..count {
        sets.push(BTreeSet::new(alloc))?;
    }
    Ok(sets)
}

// Adds the values with which something of a group is compared.
fn add_compared(
    alloc: Global,
    sets: &mut Vec<BTreeSet<Value>>,
    numbered: &Numbered,
    asks: &[Ask],
) -> Result<(), Memory>
    ensures { IfOk result (λ _. AddsIn (Each (Compares numbered.now) asks.now) sets.old.items sets.new.items) }
{
    for ask in asks {
        if let Some(group) = numbered.joint(ask.on) {
            add_constant(alloc, sets, group, &ask.constant)?;
        }
    }
    Ok(())
}

// Adds the value with which something of a group is compared, if it is.
fn add_constant(
    alloc: Global,
    sets: &mut Vec<BTreeSet<Value>>,
    group: GroupId,
    constant: &Option<Value>,
) -> Result<(), Memory>
    ensures { IfOk result (λ _. AddsIn (IsComparison group constant.now) sets.old.items sets.new.items) }
{
    match constant {
        Some(value) => add_value(sets, group, value.copy(alloc)?),
        None => Ok(()),
    }
}

// Adds the numbers of the enumerations of tested groups.
fn add_enums(
    sets: &mut Vec<BTreeSet<Value>>,
    model: &EntityModel,
    numbered: &Numbered,
    tested: &BTreeSet<u32>,
) -> Result<(), Memory>
    ensures { IfOk result (λ _. AddsIn (EachBelow (NumbersOfProp model.now numbered.now tested.now) (length model.now.props)) sets.old.items sets.new.items) }
{
    for (place, declared) in model.props.as_slice().iter().enumerate() {
        let member = MemberId::Prop(PropId {
            index: place as u32,
        });
        if let Some(group) = numbered.joint(member) {
            add_kind(sets, tested, group, &declared.kind)?;
        }
    }
    Ok(())
}

// Adds the numbers of an enumeration, if its group is tested.
fn add_kind(
    sets: &mut Vec<BTreeSet<Value>>,
    tested: &BTreeSet<u32>,
    group: GroupId,
    kind: &Kind,
) -> Result<(), Memory>
    ensures { IfOk result (λ _. AddsIn (NumbersOf tested.now group kind.now) sets.old.items sets.new.items) }
{
    match kind {
        Kind::Enum(enumeration) if tested.contains(&group.index) => {
            add_numbers(sets, group, enumeration.members.as_slice())
        }
        _ => Ok(()),
    }
}

// Adds these numbers to the constants of a group.
fn add_numbers(
    sets: &mut Vec<BTreeSet<Value>>,
    group: GroupId,
    numbers: &[i64],
) -> Result<(), Memory>
    ensures { IfOk result (λ _. AddsIn (Each (IsNumber group) numbers.now) sets.old.items sets.new.items) }
{
    for number in numbers {
        add_value(sets, group, whole(number))?;
    }
    Ok(())
}

// The value that is this number.
fn whole(number: &i64) -> Value
    ensures { result ≡ Whole number.now }
{
    Value::Whole(*number)
}

// Adds a value to the constants of a group.
fn add_value(sets: &mut Vec<BTreeSet<Value>>, group: GroupId, value: Value) -> Result<(), Memory>
    ensures { IfOk result (λ _. AddsIn (IsEntry group value) sets.old.items sets.new.items) }
{
    if let Some(set) = sets.get_mut(group.index as usize) {
        set.insert(value)?;
    }
    Ok(())
}

// The values of each set, in their order.
fn lists_of(alloc: Global, sets: Vec<BTreeSet<Value>>) -> Result<Seq<Seq<Value>>, Memory>
    ensures { IfOk result (AreListed sets.items) }
{
    let mut lists = Seq::empty(alloc);
    for set in sets {
        lists.push(list_of(alloc, set)?)?;
    }
    Ok(lists)
}

// The values of a set, in their order.
fn list_of(alloc: Global, values: BTreeSet<Value>) -> Result<Seq<Value>, Memory>
    ensures { IfOk result (IsListOf values) }
{
    let list: Vec<Value> = values.into_iter().collect(alloc)?;
    Seq::from_vec(list)
}
