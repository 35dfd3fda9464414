ghost use Rattle.std.specs.Prelude.{IfOk};
ghost use Rattle.round_trip.specs.Words.{Schema};
ghost use Rattle.round_trip.specs.soundness.mappings.Mappings.{IsSoundSchema};
ghost use Rattle.cells.specs.Cells.{TellsCells};
ghost use Rattle.mapping_core.specs.Compiles.{Decides, Judges};
ghost use Rattle.mapping_core.specs.Rules.{IsRead};

use crate::accepted::AcceptedMapping;
use crate::mapping_verdict::{Failure, first_failure};
use crate::verdict::Refusal;
use cells::{Cells, Parts};
use edm_types::{LimitFault, Schema};
use emc_base::{Memory, Seq};
use region_partition::{first_limit, regions_of_sets};
use regions::Region;
use std::alloc::Global;

/// What is found of a schema.
#[derive(Drop)]
pub(crate) enum Judgement {
    /// It is accepted; these are the regions of each entity set.
    Keeps(Seq<Seq<Region>>),
    /// A limit is passed.
    Limit(LimitFault),
    /// No limit is passed, and a legal state fails.
    Fails(Failure),
}

/// Decides whether a schema is accepted: `Limit` with the first limit that it passes; where it passes none, `Fails` with a legal state that fails, where one
/// does, else `Ok`, and then every one has tables of its own; and `Memory` where memory ran out. A refusal gives the schema back. No view is made.
pub fn decide(alloc: Global, schema: Schema) -> Result<AcceptedMapping, Refusal>
    requires { IsRead schema }
    ensures { Decides schema result }
{
    match Cells::of(alloc, &schema.model, &schema.store, &schema.mapping) {
        Ok(cells) => decide_by(alloc, schema, cells),
        Err(Memory) => {
            drop(schema);
            Err(Refusal::Memory)
        }
    }
}

// The same by the cells of the schema.
fn decide_by(alloc: Global, schema: Schema, cells: Cells) -> Result<AcceptedMapping, Refusal>
    requires read { IsRead schema }
    requires cells { TellsCells schema cells }
    ensures { Decides schema result }
{
    match judge(alloc, &schema, &cells) {
        Ok(Judgement::Keeps(regions)) => Ok(AcceptedMapping::new(schema, cells, regions)),
        Ok(Judgement::Limit(fault)) => {
            drop(cells);
            Err(Refusal::Limit(schema, fault))
        }
        Ok(Judgement::Fails(failure)) => {
            drop(cells);
            Err(Refusal::Fails(schema, failure))
        }
        Err(Memory) => {
            drop(cells);
            drop(schema);
            Err(Refusal::Memory)
        }
    }
}

// What is found of a schema with its cells, which are lent.
fn judge(alloc: Global, schema: &Schema, cells: &Cells) -> Result<Judgement, Memory>
    requires sound { IsSoundSchema schema.now }
    requires cells { TellsCells schema.now cells.now }
    ensures { IfOk result (Judges schema.now cells.now) }
{
    let parts = Parts {
        model: &schema.model,
        store: &schema.store,
        mapping: &schema.mapping,
        cells,
    };
    if let Some(fault) = first_limit(alloc, &parts)? {
        return Ok(Judgement::Limit(fault));
    }
    let regions = regions_of_sets(alloc, &parts)?;
    if let Some(failure) = first_failure(alloc, &parts, &regions)? {
        return Ok(Judgement::Fails(failure));
    }
    Ok(Judgement::Keeps(regions))
}
