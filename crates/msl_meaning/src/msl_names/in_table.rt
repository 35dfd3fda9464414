ghost use Rattle.std.specs.Prelude.{IfOk};
ghost use Rattle.groupings.specs.least_fault.Least.{IsLeast};
ghost use Rattle.layouts.specs.Faults.{fault_cmp};
ghost use Rattle.msl_rules.specs.NameRules.{LacksColumns};

use crate::msl_names::lacking::first_of_none;
use emc_base::Memory;
use groupings::{Finder, earlier};
use layouts::{Fault, first_at};
use msl_rules::{RawCond, RawEndMapping, RawFragment, RawPair};
use schema_names::SchemaNames;
use std::alloc::Global;

/// Searches for columns that a table lacks.
#[derive(Clone, Copy)]
pub struct InTable<'a> {
    /// The names of the store.
    pub names: &'a SchemaNames<'a>,
    /// The place of the table.
    pub table: usize,
}

/// The column of a pair.
impl<'a> Finder<RawPair, Fault> for InTable<'a> {
    ghost use Rattle.msl_rules.specs.NameRules.{LacksColumn};

    ghost wrong = { λ s. LacksColumn s.names.now.store.now s.table };

    fn find(&self, alloc: Global, place: usize, item: &RawPair) -> Result<Option<Fault>, Memory> {
        let col = self.names.column_near(self.table, item.col.as_str(), place);
        let found = first_of_none(alloc, col, "ColumnName")?;
        Ok(found)
    }
}

/// The column of a condition, where it names one.
impl<'a> Finder<RawCond, Fault> for InTable<'a> {
    ghost use Rattle.msl_rules.specs.NameRules.{LacksCondColumn};

    ghost wrong = { λ s. LacksCondColumn s.names.now.store.now s.table };

    fn find(&self, alloc: Global, _: usize, item: &RawCond) -> Result<Option<Fault>, Memory> {
        let Some(name) = &item.col else {
            return Ok(None);
        };
        let col = self.names.column_named(self.table, name.as_str());
        let found = first_of_none(alloc, col, "ColumnName")?;
        Ok(found)
    }
}

/// The columns of an end.
impl<'a> Finder<RawEndMapping, Fault> for InTable<'a> {
    ghost use Rattle.msl_rules.specs.NameRules.{LacksEndColumns};

    ghost wrong = { λ s. LacksEndColumns s.names.now.model.now s.names.now.store.now s.table };

    fn find(&self, alloc: Global, _: usize, item: &RawEndMapping) -> Result<Option<Fault>, Memory> {
        let found = first_at(alloc, "ScalarProperty", self, &item.pairs)?;
        Ok(found)
    }
}

impl<'a> InTable<'a> {
    /// The least of the columns in a fragment that the table lacks.
    pub fn first_in_fragment(
        &self,
        alloc: Global,
        fragment: &RawFragment,
    ) -> Result<Option<Fault>, Memory>
        ensures { IfOk result (λ found. IsLeast fault_cmp (LacksColumns self.now.names.now.store.now self.now.table fragment.now.pairs fragment.now.conds) found) }
    {
        let pairs = first_at(alloc, "ScalarProperty", self, &fragment.pairs)?;
        let conds = first_at(alloc, "Condition", self, &fragment.conds)?;
        Ok(earlier(pairs, conds))
    }
}
