ghost use Rattle.std.specs.Prelude.{◌≡◌, ◌∷◌, [], IfOk, OnOk};
ghost use Rattle.table_owners.specs.declared.table_writers.writer.Writer.{Writer};

use crate::msl_owners::spots::Spot;
use emc_base::{Memory, Seq};
use layouts::{Fault, Rule};
use std::alloc::Global;
use table_owners::Writer;

/// All that writes a table by a mapping document, in the order of the document; beside each, where it stands.
#[derive(Drop)]
pub struct AllWriters {
    /// The writers.
    pub writers: Seq<Writer>,
    /// Their places.
    pub spots: Seq<Spot>,
}

impl AllWriters {
    ghost use Rattle.msl_fragments.specs.msl_owners.AllWriters.{Adds, Holds, fault_at_writer};
    ghost use Rattle.msl_fragments.specs.msl_owners.Spots.{place_of};

    /// None yet.
    pub fn none(alloc: Global) -> AllWriters
        ensures { Holds result [] }
    {
        AllWriters {
            writers: Seq::empty(alloc),
            spots: Seq::empty(alloc),
        }
    }

    /// Adds a writer.
    pub fn push(&mut self, spot: Spot, writer: Writer) -> Result<(), Memory>
        ensures { OnOk result (Adds self.old self.new (record { place = place_of spot; writer = writer } ∷ [])) }
    {
        self.writers.push(writer)?;
        self.spots.push(spot)?;
        Ok(())
    }

    /// The rule is broken at the writer of this number, where there is one.
    pub fn fault_at(
        &self,
        alloc: Global,
        rule: Rule,
        place: Option<usize>,
    ) -> Result<Option<Fault>, Memory>
        ensures { IfOk result (λ found. found ≡ fault_at_writer rule self.now place) }
    {
        let Some(place) = place else {
            return Ok(None);
        };
        let Some(spot) = self.spots.get(place) else {
            return Ok(None);
        };
        let fault = spot.fault(alloc, rule)?;
        Ok(Some(fault))
    }
}
