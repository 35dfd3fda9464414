ghost use Rattle.std.specs.Prelude.{◌≡◌, IfOk};
ghost use Rattle.msl_meaning.specs.msl_found.NamedAt.{named_at};
ghost use Rattle.msl_rules.specs.Found.{pairs_in, table_numbered};
ghost use Rattle.msl_fragments.specs.msl_owners.SetWriters.{writer_of_set};

use crate::msl_owners::keys::{found_key_pairs, key_columns, key_pairs, set_key};
use edm_types::Pair;
use emc_base::{Memory, Seq, SetId, TableId, narrow};
use msl_meaning::InTable;
use msl_rules::RawPair;
use schema_names::SchemaNames;
use std::alloc::Global;
use table_owners::{Owner, Writer};

/// The writer by which a set owns a table, and writes these pairs. `Memory` comes where memory ran out.
pub fn set_writer(
    alloc: Global,
    names: &SchemaNames<'_>,
    set: SetId,
    table: TableId,
    pairs: &[Pair],
) -> Result<Writer, Memory>
    ensures { IfOk result (λ writer. writer ≡ writer_of_set names.now.model.now names.now.store.now set table pairs.now) }
{
    let props = set_key(names.model, set);
    let cols = key_columns(names.store, table);
    let key = key_pairs(alloc, props, cols, pairs)?;
    Ok(Writer {
        table,
        owner: Owner::Set(set),
        key,
    })
}

/// The writer by which a set owns the table of a place, and writes the pairs of a list of which both are found. `Memory` comes where memory
/// ran out.
pub fn fragment_writer(
    alloc: Global,
    place: &InTable<'_>,
    set: SetId,
    pairs: &Seq<RawPair>,
) -> Result<Writer, Memory>
    ensures { IfOk result (λ writer. writer ≡ writer_of_set place.now.names.now.model.now place.now.names.now.store.now set (table_numbered place.now.table)
        (pairs_in place.now.names.now.model.now place.now.names.now.store.now (named_at place.now.names.now.model.now place.now.ty) place.now.table pairs.now)) }
{
    let names = place.names;
    let table = TableId {
        index: narrow(place.table)?,
    };
    let props = set_key(names.model, set);
    let cols = key_columns(names.store, table);
    let key = found_key_pairs(alloc, place, props, cols, pairs.as_slice())?;
    Ok(Writer {
        table,
        owner: Owner::Set(set),
        key,
    })
}
