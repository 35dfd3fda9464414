ghost use Rattle.std.specs.Prelude.{◌≡◌, IfOk};
ghost use Rattle.entity_changes.specs.making.Types.{AddsType, DeletesTypes, InsertsTypes, joined, update_reason};

use crate::change::Reason;
use crate::spots::Spot;
use emc_base::{Memory, TypeId};
use std::collections::BTreeMap;

/// The types of the entities that have a key.
#[derive(Clone, Copy)]
pub(crate) enum Types {
    /// All are of this one.
    One(TypeId),
    /// They are of several.
    Several,
}

/// Adds the type of one more entity at a spot. `Memory` comes where memory ran out.
pub(super) fn add_type(
    types: &mut BTreeMap<Spot, Types>,
    spot: Spot,
    ty: TypeId,
) -> Result<(), Memory>
    ensures { IfOk result (λ _. AddsType spot ty types.old types.new) }
{
    let held = joined(types.get(&spot).copied(), ty);
    types.insert(spot, held)?;
    Ok(())
}

// What is known of types when there is one more.
fn joined(held: Option<Types>, ty: TypeId) -> Types
    ensures { result ≡ joined held ty }
{
    match held {
        None => Types::One(ty),
        Some(Types::One(old)) if old == ty => Types::One(ty),
        Some(_) => Types::Several,
    }
}

/// An entity of this type comes, unless one is at the spot. `Memory` comes where memory ran out.
pub(super) fn insert_type(
    types: &mut BTreeMap<Spot, Types>,
    spot: Spot,
    ty: TypeId,
) -> Result<Option<Reason>, Memory>
    ensures { IfOk result (InsertsTypes spot ty types.old types.new) }
{
    if types.contains_key(&spot) {
        return Ok(Some(Reason::Exists));
    }
    types.insert(spot, Types::One(ty))?;
    Ok(None)
}

/// Why no entity of this type can take the place of what is known of at a spot.
pub(super) fn update_reason(held: Option<Types>, ty: TypeId) -> Option<Reason>
    ensures { result ≡ update_reason held ty }
{
    match held {
        None => Some(Reason::Absent),
        Some(Types::One(old)) if old == ty => None,
        Some(_) => Some(Reason::TypeChanged),
    }
}

/// The entities at a spot go, unless none is there.
pub(super) fn delete_types(types: &mut BTreeMap<Spot, Types>, spot: &Spot) -> Option<Reason>
    ensures { DeletesTypes spot.now types.old types.new result }
{
    if types.remove(spot).is_some() {
        None
    } else {
        Some(Reason::Absent)
    }
}
