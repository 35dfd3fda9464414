ghost use Rattle.std.specs.Prelude.{◌≡◌, IfOk};
ghost use Rattle.cells.specs.Parts.{AreParts, schema_in};
ghost use Rattle.region_states.specs.region_basis.BasisOf.{basis_of};
ghost use Rattle.region_partition.specs.set_regions.Regions.{AreRegions};
ghost use Rattle.mapping_core.specs.Accepted.{AreMadeOf, HasQueryViews, IsAccepted};
ghost use Rattle.mapping_core.specs.Compiles.{Compiles};
ghost use Rattle.mapping_core.specs.Rules.{IsRead};
ghost use Rattle.cells.specs.Cells.{is_free_in};
ghost use Rattle.query_views.specs.Views.{AreQueryViewsOf};
ghost use Rattle.update_views.specs.Views.{AreViewsOf};

use crate::deciding::decide;
use crate::reading::read;
use crate::verdict::Verdict;
use cells::{Cells, Parts};
use edm_types::Schema;
use emc_base::{Bin, Memory, Seq};
use query_views::QueryViews;
use regions::Region;
use std::alloc::Global;
use std::marker::Model;
use update_views::UpdateViews;

/// An accepted mapping with its views, which contracts see as what its documents mean. They break no rule, and what they mean is sound and accepted.
#[derive(Drop)]
pub struct Compiled {
    schema: Schema,
    cells: Cells,
    regions: Seq<Seq<Region>>,
    views: MappingViews,
}

/// The views of a mapping: from entities to tables, and from tables to entities.
#[derive(Drop)]
pub struct MappingViews {
    pub update: UpdateViews,
    pub query: QueryViews,
}

/// What an accepted mapping is made of: its model, store and mapping with their cells, the regions of each entity set, in the order of the model, and the
/// views.
#[derive(Drop)]
pub struct CompiledParts<'a> {
    pub parts: Parts<'a>,
    pub regions: &'a Seq<Seq<Region>>,
    pub update_views: &'a UpdateViews,
    pub query_views: &'a QueryViews,
}

impl Model for Compiled {
    ghost use Rattle.round_trip.specs.Words.{Schema};
    ghost use Rattle.mapping_core.specs.Accepted.{AreMadeOf, IsAccepted};
    ghost use Rattle.mapping_core.specs.Rules.{IsRead};
    ghost use Rattle.std.specs.Coded.{codes};
    ghost use Rattle.edm_types.specs.contracts.model.TypeNode as node;

    ghost Value = { Schema };

    ghost coded = { Prim.hlevel (codes, node.the_row.coded) };

    ghost view = { λ c. c.schema };

    ghost invariant = { λ c. IsRead c.schema × IsAccepted c.schema × AreMadeOf c.schema c.cells c.regions c.views };
}

impl Compiled {
    // What is accepted has to be meant by documents.
    pub(crate) fn new(
        schema: Schema,
        cells: Cells,
        regions: Seq<Seq<Region>>,
        views: MappingViews,
    ) -> Compiled
        requires read { IsRead schema }
        requires accepted { IsAccepted schema }
        requires made { AreMadeOf schema cells regions views }
        ensures { result ≡ schema }
    {
        Compiled {
            schema,
            cells,
            regions,
            views,
        }
    }

    /// Lends the model, the store and the mapping: documents that break no rule mean them, they are sound, and they are accepted.
    pub fn schema(&self) -> &Schema
        ensures lends { result.now ≡ self.now }
        ensures read { IsRead self.now }
        ensures accepted { IsAccepted self.now }
    {
        &self.schema
    }

    /// Lends the same with their cells, the regions of each entity set, and the views.
    pub fn parts(&self) -> CompiledParts<'_>
        ensures lends { schema_in result.parts ≡ self.now }
        ensures read { IsRead self.now }
        ensures accepted { IsAccepted self.now }
        ensures parts { AreParts result.parts }
        ensures regions { AreRegions (basis_of result.parts) result.regions.now }
        ensures update_views { AreViewsOf (basis_of result.parts) result.update_views.now }
        ensures query_views { AreQueryViewsOf (basis_of result.parts) (is_free_in result.parts.cells.now) result.query_views.now }
    {
        CompiledParts {
            parts: Parts {
                model: &self.schema.model,
                store: &self.schema.store,
                mapping: &self.schema.mapping,
                cells: &self.cells,
            },
            regions: &self.regions,
            update_views: &self.views.update,
            query_views: &self.views.query,
        }
    }

    /// Lends the query views.
    pub fn query_views(&self) -> &QueryViews
        ensures { HasQueryViews self.now result.now }
    {
        &self.views.query
    }
}

/// Compiles the three documents of a mapping: `Rule` where a rule of the documents is broken; `Limit` where none is and what they mean passes a limit; `Fails`
/// where it passes none and a legal state fails; `Ok` where none does, and then every legal state has tables of its own; `Memory` where memory ran out.
pub fn compile(alloc: Global, csdl: &Bin, ssdl: &Bin, msl: &Bin) -> Result<Compiled, Verdict>
    ensures { Compiles csdl.now ssdl.now msl.now result }
{
    let schema = read(alloc, csdl, ssdl, msl)?;
    let accepted = decide(alloc, schema)?;
    let compiled = accepted.compiled(alloc)?;
    Ok(compiled)
}

// The views of a mapping by its regions.
pub(crate) fn views_of(
    alloc: Global,
    parts: &Parts<'_>,
    regions: &Seq<Seq<Region>>,
) -> Result<MappingViews, Memory>
    requires parts { AreParts parts.now }
    requires regions { AreRegions (basis_of parts.now) regions.now }
    ensures update { IfOk result (λ views. AreViewsOf (basis_of parts.now) views.update) }
    ensures query { IfOk result (λ views. AreQueryViewsOf (basis_of parts.now) (is_free_in parts.now.cells.now) views.query) }
{
    let update = UpdateViews::of(alloc, parts, regions)?;
    let query = QueryViews::of(alloc, parts, regions)?;
    Ok(MappingViews { update, query })
}
