ghost use Rattle.std.specs.Prelude.{◌≡◌, filter_map, option_map, IfOk};
ghost use Rattle.round_trip.specs.Words.{EntityModel};
ghost use Rattle.round_trip.specs.soundness.mappings.Mappings.{IsSoundSchema};
ghost use Rattle.round_trip.specs.Between.{schema_of};
ghost use Rattle.table_owners.specs.Pairings.{TellPairings};
ghost use Rattle.table_owners.specs.Sources.{pairs_at, pairs_by, prop_beside, props_beside};

use crate::sources::{Source, Standing, sources_of};
use edm_types::{Mapping, Pair, StoreModel};
use emc_base::{ColId, Memory, PropId, Seq};
use std::alloc::Global;

/// For each table that a set owns, if the schema is sound, the properties of the set's key, in the order of the primary key that
/// they are written to; for another table none. `Memory` comes where memory ran out.
pub fn pairings_of(
    alloc: Global,
    store: &StoreModel,
    mapping: &Mapping,
) -> Result<Seq<Seq<PropId>>, Memory>
    ensures { (model : EntityModel) → IsSoundSchema (schema_of model store.now mapping.now) → IfOk result (TellPairings (schema_of model store.now mapping.now)) }
{
    let sources = sources_of(alloc, store, mapping)?;
    let mut pairings = Seq::empty(alloc);
    for (place, table) in store.tables.as_slice().iter().enumerate() {
        let pairs = pairs_at(mapping, sources.as_slice(), place);
        pairings.push(pairing_of(alloc, table.key.as_slice(), pairs)?)?;
    }
    Ok(pairings)
}

// By which pairs a set writes its key to the table at this place, where one does.
fn pairs_at<'a>(
    mapping: &'a Mapping,
    sources: &[Option<Source>],
    place: usize,
) -> Option<&'a [Pair]>
    ensures { option_map (λ pairs. pairs.now) result ≡ pairs_at mapping.now sources.now place }
{
    let source = sources.get(place).copied().flatten()?;
    pairs_by(mapping, source)
}

// By which pairs a set writes its key so; nothing where links have rows of their own.
fn pairs_by(mapping: &Mapping, source: Source) -> Option<&[Pair]>
    ensures { option_map (λ pairs. pairs.now) result ≡ pairs_by mapping.now source }
{
    match source {
        Source::Entities(number) => {
            let fragment = mapping.fragments.get(number.index as usize)?;
            Some(fragment.pairs.as_slice())
        }
        Source::Links(number, standing) => {
            let fragment = mapping.links.get(number.index as usize)?;
            match standing {
                Standing::AtFirst => Some(fragment.first.as_slice()),
                Standing::AtSecond => Some(fragment.second.as_slice()),
                Standing::Apart => None,
            }
        }
    }
}

// The properties that are written to these columns, in the order of the columns.
fn pairing_of(alloc: Global, key: &[ColId], pairs: Option<&[Pair]>) -> Result<Seq<PropId>, Memory>
    ensures { IfOk result (λ props. props ≡ props_beside key.now (option_map (λ some. some.now) pairs.entry)) }
{
    match pairs {
        Some(pairs) => props_beside(alloc, key, pairs),
        None => Ok(Seq::empty(alloc)),
    }
}

// The properties that these pairs write to these columns.
fn props_beside(alloc: Global, key: &[ColId], pairs: &[Pair]) -> Result<Seq<PropId>, Memory>
    ensures { IfOk result (λ props. props ≡ filter_map (prop_beside pairs.now) key.now) }
{
    let mut props = Seq::empty(alloc);
    for col in key {
        if let Some(prop) = prop_beside(pairs, *col) {
            props.push(prop)?;
        }
    }
    Ok(props)
}

// The property that the first of these pairs with the column writes to it.
fn prop_beside(pairs: &[Pair], col: ColId) -> Option<PropId>
    ensures { result ≡ prop_beside pairs.now col }
{
    let pair = pairs.iter().find(|pair| pair.col.index == col.index)?;
    Some(pair.prop)
}
