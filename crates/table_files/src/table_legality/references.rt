ghost use Rattle.std.specs.Prelude.{◌≡◌, IfOk};
ghost use Rattle.table_files.specs.table_legality.References.{HoldsCells};

use crate::table_legality::cells::refers;
use crate::table_legality::rows::{cells_of, place_of, rows_at};
use crate::table_legality::rule::TableRule;
use edm_types::{ForeignKey, Row, StoreModel, Table};
use emc_base::{ColId, Key, Memory, Seq};
use entity_state::Found;
use groupings::{Finder, first_among};
use std::alloc::Global;
use std::collections::BTreeSet;

/// What rows hold in several columns.
pub fn held_cells(alloc: Global, rows: &[Row], cols: &[ColId]) -> Result<BTreeSet<Key>, Memory>
    ensures { IfOk result (HoldsCells rows.now cols.now) }
{
    let mut held = BTreeSet::new(alloc);
    for row in rows {
        let cells = cells_of(alloc, row, cols)?;
        held.insert(cells)?;
    }
    Ok(held)
}

/// Looks at the rows of a foreign key's table, where it is known what they may refer to.
#[derive(Clone, Copy)]
struct References<'a> {
    table: &'a Table,
    k: usize,
    key: &'a ForeignKey,
    held: &'a BTreeSet<Key>,
}

impl<'a> Finder<Row, Found> for References<'a> {
    ghost use Rattle.std.specs.Prelude.{IsTrue};
    ghost use Rattle.std.specs.BTreeSet.{contains};
    ghost use Rattle.std.specs.Cmp.Lexicographic.{slice_cmp};
    ghost use Rattle.emc_base.specs.Order.{value_cmp};
    ghost use Rattle.round_trip.specs.Words.{cells_of};
    ghost use Rattle.table_files.specs.table_legality.References.{IsLost};

    ghost wrong = { λ s i row. IsLost (λ one. IsTrue (contains (slice_cmp value_cmp) s.held.now (cells_of one s.key.now.from_cols))) s.table.now s.k s.key.now i row };

    fn find(&self, alloc: Global, i: usize, row: &Row) -> Result<Option<Found>, Memory> {
        if !refers(self.key, row) {
            return Ok(None);
        }
        let cells = cells_of(alloc, row, self.key.from_cols.as_slice())?;
        if self.held.contains(&cells) {
            return Ok(None);
        }
        let place = place_of(alloc, self.table, row, &self.key.name)?;
        let spot = [self.key.from.index as usize, i, self.k];
        let found = Found::at(alloc, TableRule::Reference.number(), &spot, place)?;
        Ok(Some(found))
    }
}

/// Looks at the foreign keys: the rows that break B4.
#[derive(Clone, Copy)]
pub struct ForeignKeys<'a> {
    pub store: &'a StoreModel,
    pub tables: &'a [Seq<Row>],
}

impl<'a> Finder<ForeignKey, Found> for ForeignKeys<'a> {
    ghost use Rattle.table_files.specs.table_legality.References.{IsLostByKey};

    ghost wrong = { λ s k key. IsLostByKey s.store.now s.tables.now k key };

    fn find(&self, alloc: Global, k: usize, key: &ForeignKey) -> Result<Option<Found>, Memory> {
        let Some(table) = self.store.tables.get(key.from.index as usize) else {
            return Ok(None);
        };
        let targets = rows_at(self.tables, key.to.index as usize);
        let held = held_cells(alloc, targets, key.to_cols.as_slice())?;
        let references = References {
            table,
            k,
            key,
            held: &held,
        };
        let rows = rows_at(self.tables, key.from.index as usize);
        let found = first_among(alloc, &references, rows)?;
        Ok(found)
    }
}
