ghost use Rattle.std.specs.Prelude.{◌≡◌, ◌↔◌, ◌∷◌, [], IfOk, IsTrue, MatchOption, option_map};
ghost use Rattle.emc_base.specs.Lists.{At};
ghost use Rattle.groupings.specs.least_fault.Least.{IsLeast};
ghost use Rattle.layouts.specs.Faults.{fault_cmp};
ghost use Rattle.schema_names.specs.SchemaNames.{table_named};
ghost use Rattle.msl_rules.specs.Found.{role_end};
ghost use Rattle.msl_rules.specs.LinkRules.{BreaksLinkRules, BreaksTableRules, IsUnplaced};
ghost use Rattle.msl_checks.specs.msl_written.Within.{schema_in};

use crate::msl_link_rules::columns::WrittenColumns;
use crate::msl_link_rules::conditions::first_link_condition_fault;
use crate::msl_link_rules::ends::InEnds;
use crate::msl_written::Between;
use edm_types::{Assoc, End};
use emc_base::{Memory, Txt};
use groupings::{earlier, earlier_of};
use layouts::{Fault, Rule, fault_here_if, fault_if, first_at};
use msl_meaning::make_link;
use msl_rules::RawLinkMapping;
use schema_names::WhichEnd;
use std::alloc::Global;
use table_owners::is_placed;

/// The mapping of an association set, with its association.
#[derive(Clone, Copy)]
pub struct OfLink<'a> {
    /// What the mapping stands between.
    pub between: Between<'a>,
    /// The mapping.
    pub link: &'a RawLinkMapping,
    /// The place of the association set.
    pub set: usize,
    /// Its association.
    pub assoc: &'a Assoc,
    ghost here: { At between.names.now.model.now.assocs set assoc.now },
}

impl<'a> OfLink<'a> {
    /// The end that has a role.
    pub fn end(&self, role: &str) -> Option<&'a End>
        ensures { option_map (λ end. end.now) result ≡ role_end self.now.assoc.now role.now }
    {
        match self.between.names.end_named(self.set, role)? {
            WhichEnd::First => Some(&self.assoc.first),
            WhichEnd::Second => Some(&self.assoc.second),
        }
    }

    /// The least of what is wrong in the mapping (V29, V30 and V33 to V39).
    pub fn first_fault(&self, alloc: Global) -> Result<Option<Fault>, Memory>
        ensures { IfOk result (λ found. IsLeast fault_cmp (BreaksLinkRules (schema_in self.now.between) self.now.link.now self.now.set self.now.assoc.now) found) }
    {
        let in_table = self.first_by_table(alloc)?;
        let is_constrained = self.assoc.constraint.is_some();
        let constraint = fault_if(alloc, is_constrained, Rule::ConstraintMapping, "Name")?;
        Ok(earlier(in_table, constraint))
    }

    // The least of all but V37, where the table is found.
    fn first_by_table(&self, alloc: Global) -> Result<Option<Fault>, Memory>
        ensures { IfOk result (λ found. IsLeast fault_cmp
            (λ fault. MatchOption (table_named self.now.between.names.now.store.now self.now.link.now.table) ⊥ (λ t. BreaksTableRules (schema_in self.now.between) self.now.link.now self.now.set self.now.assoc.now t fault)) found) }
    {
        let Some(table) = self.between.names.table_named(self.link.table.as_str()) else {
            return Ok(None);
        };
        let found = self.first_in_table(alloc, table)?;
        Ok(found)
    }

    // The least of all but V37, in the table at a place.
    fn first_in_table(&self, alloc: Global, table: usize) -> Result<Option<Fault>, Memory>
        ensures { IfOk result (λ found. IsLeast fault_cmp (BreaksTableRules (schema_in self.now.between) self.now.link.now self.now.set self.now.assoc.now table) found) }
    {
        let is_unplaced = self.is_unplaced(alloc, table)?;
        let columns = WrittenColumns::of(alloc, self.link.ends.as_slice())?;
        let search = InEnds {
            of: *self,
            table,
            columns: &columns,
        };
        let ends = first_at(alloc, "EndProperty", &search, &self.link.ends);
        drop(columns);
        let conds = first_link_condition_fault(alloc, &self.between, table, &self.link.conds);
        let placing = fault_here_if(alloc, is_unplaced, Rule::LinkPlace);
        earlier_of(ends, earlier_of(conds, placing))
    }

    // Whether the links are neither hosted nor joined in the table at a place.
    fn is_unplaced(&self, alloc: Global, table: usize) -> Result<bool, Memory>
        ensures { IfOk result (λ yes. IsTrue yes ↔ IsUnplaced (schema_in self.now.between) self.now.link.now self.now.set self.now.assoc.now table) }
    {
        let names = self.between.names;
        let here = Txt::of(alloc, "")?;
        let made = make_link(alloc, names, here, self.link, self.set, self.assoc, table)?;
        let is_placed = is_placed(names.store, &made, self.assoc);
        drop(made);
        Ok(!is_placed)
    }
}
