ghost use Rattle.std.specs.Prelude.{◌≡◌, IfOk};
ghost use Rattle.groupings.specs.least_fault.Least.{IsLeast};
ghost use Rattle.layouts.specs.Faults.{fault_cmp};
ghost use Rattle.msl_rules.specs.LinkRules.{BreaksEndRules};
ghost use Rattle.msl_checks.specs.msl_written.Within.{schema_in};
ghost use Rattle.msl_checks.specs.msl_link_rules.WrittenColumns.{end_in, first_writing};

use crate::msl_link_rules::again::AtEnd;
use crate::msl_link_rules::columns::WrittenColumns;
use crate::msl_link_rules::end_keys::is_key_unwritten;
use crate::msl_link_rules::of_link::OfLink;
use crate::msl_written::{MeantPairs, Writing};
use edm_types::End;
use emc_base::Memory;
use groupings::{Finder, earlier_of};
use layouts::{Fault, Rule, fault_here_if};
use msl_rules::RawEndMapping;
use std::alloc::Global;

/// Searches the ends of a mapping to a table.
#[derive(Clone, Copy)]
pub struct InEnds<'a> {
    /// The mapping.
    pub of: OfLink<'a>,
    /// The place of the table.
    pub table: usize,
    /// The columns of all ends.
    pub columns: &'a WrittenColumns,
    ghost written: { end_in columns.now ≡ first_writing of.link.now.ends },
}

/// An end, where its role is found.
impl<'a> Finder<RawEndMapping, Fault> for InEnds<'a> {
    ghost use Rattle.msl_rules.specs.LinkRules.{IsEndFault};
    ghost use Rattle.msl_checks.specs.msl_written.Within.{schema_in};

    ghost wrong = { λ s. IsEndFault (schema_in s.of.between) s.of.link.now.ends s.of.assoc.now s.table };

    fn find(
        &self,
        alloc: Global,
        place: usize,
        item: &RawEndMapping,
    ) -> Result<Option<Fault>, Memory> {
        let Some(known) = self.of.end(item.role.as_str()) else {
            return Ok(None);
        };
        let found = self.first_at_end(alloc, place, known, item)?;
        Ok(found)
    }
}

impl<'a> InEnds<'a> {
    // The least of what is wrong at an end (V29, V30 and V39).
    fn first_at_end(
        &self,
        alloc: Global,
        place: usize,
        known: &End,
        end: &RawEndMapping,
    ) -> Result<Option<Fault>, Memory>
        ensures { IfOk result (λ found. IsLeast fault_cmp (BreaksEndRules (schema_in self.now.of.between) self.now.of.link.now.ends self.now.table place end.now known.now) found) }
    {
        let writing = Writing {
            between: self.of.between,
            ty: Some(known.ty.index as usize),
            table: self.table,
        };
        let is_unwritten = is_key_unwritten(alloc, &self.of.between, self.table, known, end)?;
        let pairs = MeantPairs::of(alloc, &writing, &end.pairs)?;
        let unfit = pairs.first_unfit(alloc);
        drop(pairs);
        let key = fault_here_if(alloc, is_unwritten, Rule::WritesKey);
        let search = AtEnd {
            columns: self.columns,
            ends: &self.of.link.ends,
            place,
        };
        let again = search.first_again(alloc, end);
        earlier_of(unfit, earlier_of(key, again))
    }
}
