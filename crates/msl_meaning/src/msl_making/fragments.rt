ghost use Rattle.std.specs.Prelude.{◌≡◌, IfOk};
ghost use Rattle.std.specs.List.{filter_map};
ghost use Rattle.msl_rules.specs.Found.{pick_in};
ghost use Rattle.msl_rules.specs.MappingMeaning.{fragment_with};

use crate::msl_found::{InTable, picked_type};
use crate::msl_making::conditions::conds_in;
use edm_types::{Fragment, Pick};
use emc_base::{Memory, Seq, SetId, TableId, Txt, TypeId, narrow, put_found};
use msl_rules::{RawFragment, RawPick, RawTypeMapping};
use schema_names::SchemaNames;
use std::alloc::Global;

/// The fragment of a type mapping, at this pointer, with the set and the table at these places. `Memory` comes where memory ran out.
pub fn make_fragment(
    alloc: Global,
    names: &SchemaNames<'_>,
    place: Txt,
    types: &RawTypeMapping,
    fragment: &RawFragment,
    set: usize,
    table: usize,
) -> Result<Fragment, Memory>
    ensures { IfOk result (λ made. made ≡ fragment_with names.now.model.now names.now.store.now place types.now fragment.now set table) }
{
    let ty = picked_type(names, types.picks.as_slice());
    let found = InTable { names, ty, table };
    Ok(Fragment {
        place,
        set: SetId {
            index: narrow(set)?,
        },
        picks: picks_in(alloc, names, &types.picks)?,
        table: TableId {
            index: narrow(table)?,
        },
        pairs: found.pairs(alloc, &fragment.pairs)?,
        conds: conds_in(alloc, &found, &fragment.conds)?,
    })
}

// The items of a TypeName whose types are found, in their order.
fn picks_in(
    alloc: Global,
    names: &SchemaNames<'_>,
    picks: &Seq<RawPick>,
) -> Result<Seq<Pick>, Memory>
    ensures { IfOk result (λ found. found ≡ filter_map (pick_in names.now.model.now) picks.now) }
{
    let mut found = Seq::empty(alloc);
    for pick in picks.as_slice() {
        put_found(&mut found, pick_in(names, pick)?)?;
    }
    Ok(found)
}

// An item of a TypeName, where its type is found.
fn pick_in(names: &SchemaNames<'_>, pick: &RawPick) -> Result<Option<Pick>, Memory>
    ensures { IfOk result (λ found. found ≡ pick_in names.now.model.now pick.now) }
{
    let Some(place) = names.type_named(pick.reference.as_str()) else {
        return Ok(None);
    };
    let ty = TypeId {
        index: narrow(place)?,
    };
    Ok(Some(Pick {
        ty,
        below: pick.below,
    }))
}
