//! The basis by which cells tell the regions of their mapping, and the ends of hosted associations.

mod ends;

ghost use Rattle.round_trip.specs.Words.{Entity, SetId, State, key_of};
ghost use Rattle.cells.specs.declared.parts.Parts.{Parts};
ghost use Rattle.cells.specs.HostedLinks.{hosted_links};
ghost use Rattle.cells.specs.Parts.{AreParts, schema_in};
ghost use Rattle.regions.specs.region_laws.IsBasis.{AreHostedLinks, IsBasis};
ghost use Rattle.region_states.specs.region_basis.BasisOf.{basis_of};

pub use ends::{host_end, hosting_end, partner_end};

/// The answers by a mapping's cells are those that the definitions give for its schema.
pub fn parts_are_a_basis()
    ensures basis { (parts : Parts) → AreParts parts → IsBasis (basis_of parts) }
{}

/// The links that the cells answer for an entity are just those that the basis lets it host.
pub fn hosted_links_are_those_of_the_basis()
    ensures links { (parts : Parts) → AreParts parts → (state : State) (s : SetId) (entity : Entity) → AreHostedLinks (basis_of parts) state s entity
        (hosted_links (schema_in parts).model parts.cells.now state s (key_of (schema_in parts).model entity)) }
{}
