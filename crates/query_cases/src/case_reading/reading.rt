ghost use Rattle.std.specs.Prelude.{◌≡◌, ◌↔◌, All, Contains, IfOk, IsTrue, length, map, slice_get, unwrap_or};
ghost use Rattle.case_laws.specs.candidates.Rows.{shown_rows};
ghost use Rattle.case_laws.specs.region_cases.Cases.{cases_of};
ghost use Rattle.query_cases.specs.case_cells.Holding.{MayMeet};
ghost use Rattle.query_cases.specs.case_reading.Links.{HasPlace, read_link, read_links};
ghost use Rattle.query_cases.specs.case_reading.Reading.{IsReadingOf};
ghost use Rattle.query_cases.specs.case_reading.Sources.{AgreeTwins, cell_at, read_entity, read_values, source_value};
ghost use Rattle.cells.specs.Cells.{is_free_in};
ghost use Rattle.cells.specs.Parts.{AreParts};
ghost use Rattle.emc_base.specs.ValueRefs.{shown_value};
ghost use Rattle.region_states.specs.region_basis.BasisOf.{basis_of};
ghost use Rattle.round_trip.specs.Words.{Null, SetId};

use crate::case_reading::links::{copied_at, links_of, value_at};
use crate::case_reading::making::{sources_of, twins_of};
use crate::case_reading::meeting::{agree, cell_at, may_meet};
use case_laws::{Case, PlacedRow};
use cells::Parts;
use edm_types::{Entity, Hosted};
use emc_base::{AssocId, Memory, Seq, Value, ValueRef};
use region_partition::props_of;
use std::alloc::Global;

/// Where a cell stands among the rows at a key.
#[derive(Clone, Copy, Debug, PartialEq, Eq)]
pub struct CellPlace {
    /// The place of its row among the rows.
    pub row: usize,
    /// The place of its column in the row.
    pub col: usize,
}

/// Where an entity's value of a property is read.
#[derive(Drop)]
pub enum Source {
    /// It is this one, in every entity of the region.
    Is(Value),
    /// The cell holds it.
    Cell(CellPlace),
}

/// Two cells that show one property.
#[derive(Clone, Copy)]
pub struct Twins {
    /// The first cell that shows it.
    pub first: CellPlace,
    /// A later one.
    pub later: CellPlace,
}

/// How the link of an association is read.
#[derive(Drop)]
pub struct LinkReading {
    /// The association.
    pub assoc: AssocId,
    /// The places of the cells that show the parts of the partner's key, in the key's order.
    pub parts: Seq<CellPlace>,
}

/// How the entities of a region are read: where the values of its type's properties are, in their order, which cells show one property, and how the links
/// are read that the entities host, in the order of associations.
#[derive(Drop)]
pub struct Reading {
    values: Seq<Source>,
    twins: Seq<Twins>,
    links: Seq<LinkReading>,
}

impl Reading {
    /// How entities are read by a case. `Memory` comes where memory ran out.
    pub fn of(alloc: Global, parts: &Parts<'_>, case: &Case) -> Result<Reading, Memory>
        requires parts { AreParts parts.now }
        requires case { (s : SetId) × Contains (cases_of (is_free_in parts.now.cells.now) (basis_of parts.now) s) case.now }
        ensures { IfOk result (IsReadingOf (basis_of parts.now) case.now) }
    {
        let (firsts, twins) = twins_of(alloc, case.rows.as_slice())?;
        let props = props_of(parts.model, case.region.ty);
        let values = sources_of(alloc, case.region.atoms.as_slice(), &firsts, props)?;
        let links = links_of(alloc, parts, case)?;
        Ok(Reading {
            values,
            twins,
            links,
        })
    }

    /// Whether the rows at a key meet the case. It takes no memory.
    pub fn meets(&self, parts: &Parts<'_>, case: &Case, rows: &[PlacedRow<'_>]) -> bool
        requires { AreParts parts.now }
        ensures { IsTrue result ↔ (MayMeet (basis_of parts.now) case.now (shown_rows rows.now) × AgreeTwins self.now (shown_rows rows.now)) }
    {
        may_meet(parts, case, rows) && agree(self.twins.as_slice(), rows)
    }

    /// The entity that rows tell, value by value. `Memory` comes where memory ran out.
    pub fn entity(
        &self,
        alloc: Global,
        case: &Case,
        rows: &[PlacedRow<'_>],
    ) -> Result<Entity, Memory>
        ensures { IfOk result (λ entity. entity ≡ read_entity self.now case.now.region.ty (shown_rows rows.now)) }
    {
        let mut values = Seq::empty(alloc);
        for source in self.values.as_slice() {
            values.push(source_value(source, rows).copy(alloc)?)?;
        }
        Ok(Entity {
            ty: case.region.ty,
            values,
        })
    }

    /// Lends the value of the property at a place of the type's list; null where the list isn't longer than that.
    pub fn value<'t>(&'t self, rows: &[PlacedRow<'t>], i: usize) -> ValueRef<'t>
        ensures { shown_value result ≡ unwrap_or (slice_get (read_values self.now (shown_rows rows.now)) i) Null }
    {
        match self.values.get(i) {
            Some(source) => source_value(source, rows),
            None => ValueRef::Null,
        }
    }

    /// How many values there are.
    pub fn len(&self) -> usize
        ensures { result ≡ length self.now.values }
    {
        self.values.len()
    }

    /// Lends how the links are read.
    pub fn links(&self) -> &[LinkReading]
        ensures { result.now ≡ self.now.links }
    {
        self.links.as_slice()
    }

    /// The links that rows tell, one of each association. `Memory` comes where memory ran out.
    pub fn hosted(&self, alloc: Global, rows: &[PlacedRow<'_>]) -> Result<Seq<Hosted>, Memory>
        ensures { IfOk result (λ links. links ≡ read_links self.now (shown_rows rows.now)) }
    {
        let mut links = Seq::empty(alloc);
        for link in self.links.as_slice() {
            links.push(link.hosted(alloc, rows)?)?;
        }
        Ok(links)
    }
}

impl LinkReading {
    /// The link that rows tell. `Memory` comes where memory ran out.
    pub fn hosted(&self, alloc: Global, rows: &[PlacedRow<'_>]) -> Result<Hosted, Memory>
        ensures { IfOk result (λ link. link ≡ read_link (shown_rows rows.now) self.now) }
    {
        let mut partner = Seq::empty(alloc);
        for place in self.parts.as_slice() {
            partner.push(copied_at(alloc, rows, *place)?)?;
        }
        Ok(Hosted {
            assoc: self.assoc,
            partner,
        })
    }

    /// Lends the parts of the partner's key that rows tell. `Memory` comes where memory ran out.
    pub fn partner<'t>(
        &self,
        alloc: Global,
        rows: &[PlacedRow<'t>],
    ) -> Result<Vec<&'t Value>, Memory>
        requires { All (HasPlace (shown_rows rows.now)) self.now.parts }
        ensures { IfOk result (λ partner. map (λ value. value.now) partner.items ≡ map (cell_at (shown_rows rows.now)) self.now.parts) }
    {
        let mut partner = Vec::new(alloc);
        for place in self.parts.as_slice() {
            partner.push(value_at(rows, *place))?;
        }
        Ok(partner)
    }
}

// The value that is read.
fn source_value<'t>(source: &'t Source, rows: &[PlacedRow<'t>]) -> ValueRef<'t>
    ensures { shown_value result ≡ source_value (shown_rows rows.now) source.now }
{
    match source {
        Source::Is(value) => value.lend(),
        Source::Cell(place) => match cell_at(rows, *place) {
            Some(value) => value.lend(),
            None => ValueRef::Null,
        },
    }
}
