ghost use Rattle.std.specs.Prelude.{◌≡◌, Contains, IfOk, length};
ghost use Rattle.member_groups.specs.mapping_asks.Adding.{Adds, Each, EachBelow, HasKey, Tells};
ghost use Rattle.member_groups.specs.Causes.{AreTested, AsksGroup, IsSharer, MarksGroup, makes_tested, mark_by};

use crate::group_numbers::Numbered;
use crate::mapping_asks::{Ask, MemberId, with_several, writes_of};
use edm_types::{EntityModel, Mapping};
use emc_base::{Kind, Memory, PropId};
use std::alloc::Global;
use std::collections::BTreeSet;

/// The numbers of the tested groups.
pub fn tested_groups(
    alloc: Global,
    model: &EntityModel,
    mapping: &Mapping,
    numbered: &Numbered,
    asks: &[Ask],
) -> Result<BTreeSet<u32>, Memory>
    ensures { IfOk result (AreTested model.now mapping.now numbered.now asks.now) }
{
    let writes = writes_of(alloc, mapping.fragments.as_slice())?;
    let twice = with_several(alloc, &writes)?;
    let sharers = sharers_in(alloc, model, numbered)?;
    let shared = with_several(alloc, &sharers)?;
    let mut tested = BTreeSet::new(alloc);
    add_asked(&mut tested, numbered, asks)?;
    add_props(&mut tested, model, numbered, &twice, &shared)?;
    Ok(tested)
}

// The numbers of the groups of properties that are no part of a key, each with its property.
fn sharers_in(
    alloc: Global,
    model: &EntityModel,
    numbered: &Numbered,
) -> Result<Vec<(u32, MemberId)>, Memory>
    ensures { IfOk result (λ sharers. Tells (Contains sharers.items) (EachBelow (IsSharer numbered.now) (length model.now.props))) }
{
    let mut sharers = Vec::new(alloc);
    for place in 0..model.props.len() {
        let member = MemberId::Prop(PropId {
            index: place as u32,
        });
        if let Some(group) = numbered.joint(member) {
            sharers.push((group.index, member))?;
        }
    }
    Ok(sharers)
}

// Adds the groups of what is asked.
fn add_asked(tested: &mut BTreeSet<u32>, numbered: &Numbered, asks: &[Ask]) -> Result<(), Memory>
    ensures { IfOk result (λ _. Adds (Each (AsksGroup numbered.now) asks.now) (HasKey tested.old) (HasKey tested.new)) }
{
    for ask in asks {
        if let Some(group) = numbered.joint(ask.on) {
            tested.insert(group.index)?;
        }
    }
    Ok(())
}

// Adds the groups of properties that make them tested by themselves: those that are written twice, and enumerations that share
// their group or have one number.
fn add_props(
    tested: &mut BTreeSet<u32>,
    model: &EntityModel,
    numbered: &Numbered,
    twice: &BTreeSet<u32>,
    shared: &BTreeSet<u32>,
) -> Result<(), Memory>
    ensures { IfOk result (λ _. Adds (EachBelow (MarksGroup model.now numbered.now twice.now shared.now) (length model.now.props)) (HasKey tested.old) (HasKey tested.new)) }
{
    for (place, declared) in model.props.as_slice().iter().enumerate() {
        let property = PropId {
            index: place as u32,
        };
        if let Some(group) = mark_of(numbered, twice, shared, property, &declared.kind) {
            tested.insert(group)?;
        }
    }
    Ok(())
}

// The group that a property of this kind makes tested, if it does.
fn mark_of(
    numbered: &Numbered,
    twice: &BTreeSet<u32>,
    shared: &BTreeSet<u32>,
    property: PropId,
    kind: &Kind,
) -> Option<u32>
    ensures { result ≡ mark_by numbered.now twice.now shared.now property kind.now }
{
    let group = numbered.joint(MemberId::Prop(property))?.index;
    let is_shared = shared.contains(&group);
    (twice.contains(&property.index) || is_tested_kind(kind, is_shared)).then_some(group)
}

// Whether a kind makes a group tested that it shares with another property, or doesn't.
fn is_tested_kind(kind: &Kind, is_shared: bool) -> bool
    ensures { result ≡ makes_tested kind.now is_shared }
{
    match kind {
        Kind::Enum(enumeration) => is_shared || enumeration.members.len() == 1,
        _ => false,
    }
}
