//! A legal state for each region and each key that can stand: it holds an entity of the region with this key, to which nothing refers but by what it asks for itself.

ghost use Rattle.std.specs.Prelude.{◌≤◌, ℕ, Contains, List};
ghost use Rattle.round_trip.specs.Words.{PropId, SetId, Value, key_of, key_props, value_of};
ghost use Rattle.round_trip.specs.soundness.mappings.Joined.{IsDependent};
ghost use Rattle.schema_laws.specs.short_values.Short.{IsShort};
ghost use Rattle.cells.specs.Limits.{IsWithinLimits};
ghost use Rattle.regions.specs.Basis.{Basis};
ghost use Rattle.regions.specs.Regions.{regions_of};
ghost use Rattle.regions.specs.declared.region.Region.{Region};
ghost use Rattle.regions.specs.region_laws.Held.{HeldEntity};
ghost use Rattle.regions.specs.region_laws.IsBasis.{IsBasis};
ghost use Rattle.host_states.specs.BaseStates.{IsBaseFor, IsKeyOf, IsOuterKey, IsStatedKey, base_state};

/// For each region and each key that can stand a legal state holds an entity of the region with this key, by a row of numbers of which the key has no value;
/// and there is such a row. The key of each entity of a legal state can stand, if its dependent parts are short.
pub fn each_region_has_a_base_population()
    ensures holds { (basis : Basis) → IsBasis basis → IsWithinLimits basis.schema → (s : SetId) (region : Region) → Contains (regions_of basis s) region
        → (key : List Value) → IsStatedKey basis region key → (outer : ℕ) → outer ≤ 4 → IsOuterKey outer key → IsBaseFor basis outer s region key (base_state basis outer region key) }
    ensures row { (basis : Basis) → IsBasis basis → (region : Region) (key : List Value) → IsKeyOf basis region key → (outer : ℕ) × (outer ≤ 4) × IsOuterKey outer key }
    ensures stated { (basis : Basis) → IsBasis basis → (at : HeldEntity basis)
        → ((p : PropId) → Contains (key_props basis.schema.model at.region.ty) p → IsDependent basis.schema.model p → IsShort (value_of basis.schema.model at.entity p))
        → IsStatedKey basis at.region (key_of basis.schema.model at.entity) }
{}
