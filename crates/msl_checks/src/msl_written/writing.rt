ghost use Rattle.std.specs.Prelude.{◌≡◌, ◌↔◌, IsSome, IsTrue, option_map, slice_get};
ghost use Rattle.edm_types.specs.declared.mapping.CondOn.TheVariants.{Col};
ghost use Rattle.round_trip.specs.soundness.mappings.Joined.{IsBarred, member_of};
ghost use Rattle.round_trip.specs.soundness.mappings.Joined.Member.{col as col_member};
ghost use Rattle.msl_checks.specs.msl_written.Within.{found_in, key_in, kind_in, schema_in, table_in};

use crate::msl_written::between::Between;
use crate::msl_written::kinds::{column_kind, prop_kind};
use edm_types::CondOn;
use emc_base::{ColId, Kind, TableId};
use msl_meaning::InTable;

/// A table, and the type, where there is one, whose properties are named.
#[derive(Clone, Copy)]
pub struct Writing<'a> {
    /// The model, the store and the mapping.
    pub between: Between<'a>,
    /// The place of the type.
    pub ty: Option<usize>,
    /// The place of the table.
    pub table: usize,
}

impl<'a> Writing<'a> {
    /// What names stand for there.
    pub fn found(&self) -> InTable<'a>
        ensures { result ≡ found_in self.now }
    {
        InTable {
            names: self.between.names,
            ty: self.ty,
            table: self.table,
        }
    }

    /// The columns of the table's primary key; none where there is no such table.
    pub fn key_columns(&self) -> &'a [ColId]
        ensures { result.now ≡ key_in self.now }
    {
        match self.between.names.store.tables.get(self.table) {
            Some(table) => table.key.as_slice(),
            None => &[],
        }
    }

    /// The kind of what a condition is on.
    pub(super) fn kind_of(&self, what: CondOn) -> Option<&'a Kind>
        ensures { option_map (λ kind. kind.now) result ≡ kind_in self.now what }
    {
        match what {
            CondOn::Prop(prop) => prop_kind(self.between.names.model, prop),
            CondOn::Col(col) => column_kind(self.between.names.store, self.table, col),
        }
    }

    /// Whether what a condition is on neither tells another entity nor is joined to what does.
    pub(super) fn is_free(&self, what: CondOn) -> bool
        requires { IsSome (kind_in self.now what) }
        ensures { IsTrue result ↔ (¬ IsBarred (schema_in self.now.between) (member_of (table_in self.now) what)) }
    {
        match what {
            CondOn::Prop(prop) => !self.between.barred.has_prop(prop),
            CondOn::Col(col) => self.has_free_column(col),
        }
    }

    // Whether a column of the table is free so.
    fn has_free_column(&self, col: ColId) -> bool
        requires { IsSome (kind_in self.now (Col col)) }
        ensures { IsTrue result ↔ (¬ IsBarred (schema_in self.now.between) (col_member (table_in self.now) col)) }
    {
        let Some(table) = self.table_id() else {
            return true;
        };
        !self.between.barred.has_column(table, col)
    }

    // The table's id, where there is such a table.
    fn table_id(&self) -> Option<TableId>
        ensures { result ≡ option_map (λ _. table_in self.now) (slice_get self.now.between.names.now.store.now.tables self.now.table) }
    {
        if self.table >= self.between.names.store.tables.len() {
            return None;
        }
        Some(TableId {
            index: self.table as u32,
        })
    }
}
