ghost use Rattle.std.specs.Prelude.{◌≡◌, IfOk};
ghost use Rattle.mapping_core.specs.Accepted.{HasRegions, IsAccepted};
ghost use Rattle.mapping_core.specs.Rules.{IsRead};

use crate::compiled::{Compiled, views_of};
use cells::{Cells, Parts};
use edm_types::Schema;
use emc_base::{Memory, Seq};
use regions::Region;
use std::alloc::Global;
use std::marker::Model;

/// An accepted mapping without its views, which contracts see as what its documents mean. They break no rule, and what they mean is sound and accepted.
#[derive(Drop)]
pub struct AcceptedMapping {
    schema: Schema,
    cells: Cells,
    regions: Seq<Seq<Region>>,
}

impl Model for AcceptedMapping {
    ghost use Rattle.round_trip.specs.Words.{Schema};
    ghost use Rattle.mapping_core.specs.Accepted.{HasRegions, IsAccepted};
    ghost use Rattle.mapping_core.specs.Rules.{IsRead};
    ghost use Rattle.std.specs.Coded.{codes};
    ghost use Rattle.edm_types.specs.contracts.model.TypeNode as node;

    ghost Value = { Schema };

    ghost coded = { Prim.hlevel (codes, node.the_row.coded) };

    ghost view = { λ m. m.schema };

    ghost invariant = { λ m. IsRead m.schema × IsAccepted m.schema × HasRegions m.schema m.cells m.regions };
}

impl AcceptedMapping {
    // What is accepted has to be meant by documents.
    pub(crate) fn new(schema: Schema, cells: Cells, regions: Seq<Seq<Region>>) -> AcceptedMapping
        requires read { IsRead schema }
        requires accepted { IsAccepted schema }
        requires regions { HasRegions schema cells regions }
        ensures { result ≡ schema }
    {
        AcceptedMapping {
            schema,
            cells,
            regions,
        }
    }

    /// Lends the model, the store and the mapping: documents that break no rule mean them, they are sound, and they are accepted.
    pub fn schema(&self) -> &Schema
        ensures lends { result.now ≡ self.now }
        ensures read { IsRead self.now }
        ensures accepted { IsAccepted self.now }
    {
        &self.schema
    }

    /// The same mapping with its views. `Memory` comes where memory ran out.
    pub fn compiled(self, alloc: Global) -> Result<Compiled, Memory>
        ensures { IfOk result (λ compiled. compiled ≡ self) }
    {
        let AcceptedMapping {
            schema,
            cells,
            regions,
        } = self;
        let parts = Parts {
            model: &schema.model,
            store: &schema.store,
            mapping: &schema.mapping,
            cells: &cells,
        };
        match views_of(alloc, &parts, &regions) {
            Ok(views) => Ok(Compiled::new(schema, cells, regions, views)),
            Err(Memory) => {
                drop(regions);
                drop(cells);
                drop(schema);
                Err(Memory)
            }
        }
    }
}
