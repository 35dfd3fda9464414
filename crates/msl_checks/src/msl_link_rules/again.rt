ghost use Rattle.std.specs.Prelude.{◌≡◌, IfOk};
ghost use Rattle.groupings.specs.least_fault.Least.{IsLeast};
ghost use Rattle.layouts.specs.Faults.{fault_cmp};
ghost use Rattle.msl_checks.specs.msl_link_rules.LinkParts.{WritesAgain};
ghost use Rattle.msl_checks.specs.msl_link_rules.WrittenColumns.{end_in, first_writing};

use crate::msl_link_rules::columns::WrittenColumns;
use crate::msl_written::first_twice_written;
use emc_base::{Memory, Seq};
use groupings::{Finder, earlier};
use layouts::{Fault, Rule, fault_here_if, first_at};
use msl_rules::{RawEndMapping, RawPair};
use std::alloc::Global;

/// Searches an end for columns that are written before.
#[derive(Clone, Copy)]
pub struct AtEnd<'a> {
    /// The columns of all ends of the mapping.
    pub columns: &'a WrittenColumns,
    /// The ends.
    pub ends: &'a Seq<RawEndMapping>,
    /// The place of the end.
    pub place: usize,
    ghost of: { end_in columns.now ≡ first_writing ends.now },
}

/// The column of a pair, where an earlier end writes it.
impl<'a> Finder<RawPair, Fault> for AtEnd<'a> {
    ghost use Rattle.std.specs.Prelude.{[]};
    ghost use Rattle.layouts.specs.declared.rule.Rule.TheVariants.{WrittenOnce};
    ghost use Rattle.layouts.specs.rule_places.Places.{IsAt};
    ghost use Rattle.msl_rules.specs.LinkRules.{IsWrittenAtEarlierEnd};

    ghost wrong = { λ s _ pair inside. IsWrittenAtEarlierEnd s.ends.now s.place pair × IsAt WrittenOnce [] inside };

    fn find(&self, alloc: Global, _: usize, item: &RawPair) -> Result<Option<Fault>, Memory> {
        let is_again = self.columns.is_written_before(self.place, item);
        let found = fault_here_if(alloc, is_again, Rule::WrittenOnce)?;
        Ok(found)
    }
}

impl<'a> AtEnd<'a> {
    /// The least of the pairs of the end, whose property or column is written before in the list, or whose column an earlier end writes.
    pub fn first_again(&self, alloc: Global, end: &RawEndMapping) -> Result<Option<Fault>, Memory>
        ensures { IfOk result (λ found. IsLeast fault_cmp (WritesAgain self.now.ends.now self.now.place end.now) found) }
    {
        let in_list = first_twice_written(alloc, &end.pairs)?;
        let in_earlier = first_at(alloc, "ScalarProperty", self, &end.pairs)?;
        Ok(earlier(in_list, in_earlier))
    }
}
