//! That cells are a basis of the regions of their mapping; conflicts, and legal states that hold an entity of a region: what they demand by its pattern, which values it may have, and which states there are.
#![tactic(auto)]

mod conflicts;
mod default_values;
mod focus_laws;
pub mod joined_laws;
pub mod region_basis;

ghost use Rattle.std.specs.Prelude.{◌≡◌, ℕ, Contains};
ghost use Rattle.round_trip.specs.Words.{ColId, PropId, State, TableId, props_of, value_of};
ghost use Rattle.regions.specs.Basis.{Basis};
ghost use Rattle.regions.specs.Patterns.{Valuation, by_entity, pattern_of, value_under};
ghost use Rattle.regions.specs.declared.pattern.Focus.TheVariants as focus;
ghost use Rattle.regions.specs.declared.pattern.Symbol.{Symbol};
ghost use Rattle.regions.specs.declared.region.Region.{Region};
ghost use Rattle.regions.specs.region_laws.IsBasis.{IsBasis};
ghost use Rattle.regions.specs.region_laws.Held.{IsHeldAt};
ghost use Rattle.regions.specs.region_laws.pattern.Allowed.{IsAllowed, RegionValues};
ghost use Rattle.regions.specs.region_laws.pattern.Listed.{Lists};
ghost use Rattle.region_states.specs.defaults.Admissible.{IsAdmissible};
ghost use Rattle.region_states.specs.conflicts.There.{HasFewLinks};
ghost use Rattle.region_states.specs.Entities.{focus_entity};
ghost use Rattle.region_states.specs.HoldsFocus.{HoldsFocus};

pub use conflicts::Conflict;
pub use default_values::{
    choices_are_told, each_atom_has_a_value, each_region_has_values, groups_share_free_values,
    joined_values_fit, properties_can_differ, some_candidates_are_left,
    untested_properties_have_two_values,
};
pub use focus_laws::{
    a_pattern_is_the_demand, a_pattern_is_the_facts, agreement_is_by_the_pattern, flags_tell_links,
    no_other_row_is_demanded,
};
pub use joined_laws::{a_joined_pattern_is_one_row, joined_links_are_told};
pub use region_basis::{
    host_end, hosted_links_are_those_of_the_basis, hosting_end, partner_end, parts_are_a_basis,
};

/// An entity that is made of values has them, and each symbol that the pattern of its region lists has the same value by the entity as by these. Where
/// they are admissible, the entity's are.
pub fn an_entity_has_its_values()
    ensures values { (basis : Basis) (region : Region) (values : Valuation) (p : PropId) → Contains (props_of basis.schema.model region.ty) p
        → value_of basis.schema.model (focus_entity basis region values) p ≡ values.prop p }
    ensures symbols { (basis : Basis) → IsBasis basis → (at : RegionValues basis) (t : TableId) (c : ColId) (one : Symbol)
        → Lists (pattern_of basis (focus.Entity at.region)) t c one
        → value_under (by_entity basis.schema.model (focus_entity basis at.region at.values) at.values.part) one ≡ value_under at.values one }
    ensures admissible { (basis : Basis) → IsBasis basis → (at : RegionValues basis) (outer : ℕ) → IsAdmissible basis outer at.region at.values
        → IsAdmissible basis outer at.region (by_entity basis.schema.model (focus_entity basis at.region at.values) at.values.part) }
{}

/// In a state that holds an entity of allowed values, the region holds it with the partners that are told; and it hosts few links.
pub fn a_focus_is_held()
    ensures held { (basis : Basis) → IsBasis basis → (at : RegionValues basis) → IsAllowed basis at.region at.values → (state : State)
        → HoldsFocus basis at.region at.values state → IsHeldAt basis state at.s (focus_entity basis at.region at.values) at.region at.values.part }
    ensures few { (basis : Basis) → IsBasis basis → (at : RegionValues basis) (state : State) → HoldsFocus basis at.region at.values state
        → HasFewLinks basis state at.s (focus_entity basis at.region at.values) }
{}
