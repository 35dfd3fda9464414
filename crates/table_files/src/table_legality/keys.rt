ghost use Rattle.std.specs.Prelude.{◌≡◌, ◌∷◌, [], IfOk, Some, map};
ghost use Rattle.groupings.specs.least_fault.Least.{IsLeast};
ghost use Rattle.round_trip.specs.Words.{place_at, row_key};
ghost use Rattle.entity_state.specs.breach_order.Founds.{found_cmp};
ghost use Rattle.entity_state.specs.breach_order.Repeats.{IsFoundRepeat};

use crate::are_told_apart;
use crate::table_legality::rows::{keys_of, rows_at};
use crate::table_legality::rule::TableRule;
use edm_types::{Row, Table};
use emc_base::{Key, Memory, Place, Seq, Txt};
use entity_state::{Found, first_repeated_key};
use groupings::Finder;
use std::alloc::Global;

/// Looks at the primary keys of the tables: the rows that break B3.
#[derive(Clone, Copy)]
pub struct TableKeys<'a> {
    pub tables: &'a [Seq<Row>],
}

impl<'a> Finder<Table, Found> for TableKeys<'a> {
    ghost use Rattle.std.specs.Prelude.{[], map};
    ghost use Rattle.round_trip.specs.Words.{place_at, row_key, rows_in};
    ghost use Rattle.entity_state.specs.breach_order.Repeats.{IsFoundRepeat};

    ghost wrong = { λ s t table. IsFoundRepeat 3 t (λ key. place_at table.name key []) (map (row_key table) (rows_in s.tables.now (record { index = t }))) };

    // Keys are copied only where two rows have the same one.
    fn find(&self, alloc: Global, t: usize, table: &Table) -> Result<Option<Found>, Memory> {
        let rows = rows_at(self.tables, t);
        if are_told_apart(alloc, rows, table.key.as_slice())? {
            return Ok(None);
        }
        first_again(alloc, t, table, rows)
    }
}

// The first of these rows whose key another before it has.
fn first_again(
    alloc: Global,
    t: usize,
    table: &Table,
    rows: &[Row],
) -> Result<Option<Found>, Memory>
    ensures { IfOk result (IsLeast found_cmp (IsFoundRepeat 3 t (λ key. place_at table.now.name key []) (map (row_key table.now) rows.now))) }
{
    let keys = keys_of(alloc, table, rows)?;
    let list = keys.as_slice();
    match first_repeated_key(alloc, list)? {
        Some(i) => found_at(alloc, t, table, i, &list[i]),
        None => Ok(None),
    }
}

// The row at a place whose key is this, as what is found.
fn found_at(
    alloc: Global,
    t: usize,
    table: &Table,
    i: usize,
    key: &Key,
) -> Result<Option<Found>, Memory>
    ensures { IfOk result (λ found. found ≡ Some (record { rule = 3; spot = t ∷ i ∷ []; place = place_at table.now.name key.now [] })) }
{
    let place = Place {
        name: table.name.copy(alloc)?,
        key: key.copy(alloc)?,
        part: Txt::of(alloc, "")?,
    };
    let found = Found::at(alloc, TableRule::RowKey.number(), &[t, i], place)?;
    Ok(Some(found))
}
