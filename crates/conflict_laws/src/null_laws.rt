//! Nulls: where nothing clashes, some legal state leaves null in a column that isn't nullable just where a pattern lists a symbol in it that can be null,
//! or none.

ghost use Rattle.std.specs.Prelude.{◌≡◌, Contains, IsTrue, List};
ghost use Rattle.round_trip.specs.Words.{ColId, Column, FailsAt, Pair, SetId, State, Table, TableId, place_at};
ghost use Rattle.round_trip.specs.FailsAt.{HasColumn};
ghost use Rattle.round_trip.specs.declared.FailKind.TheVariants as kind;
ghost use Rattle.schema_laws.specs.state_demand.Owners.{IsOwned, paired_key};
ghost use Rattle.cells.specs.Limits.{IsWithinLimits};
ghost use Rattle.regions.specs.Basis.{Basis};
ghost use Rattle.regions.specs.Patterns.{Valuation};
ghost use Rattle.regions.specs.Regions.{regions_of};
ghost use Rattle.regions.specs.declared.pattern.Focus.TheVariants as focus;
ghost use Rattle.regions.specs.declared.pattern.Symbol.{Symbol};
ghost use Rattle.regions.specs.declared.region.Region.{Region};
ghost use Rattle.regions.specs.region_laws.IsBasis.{IsBasis};
ghost use Rattle.regions.specs.region_laws.Partners.{HasFewPartners};
ghost use Rattle.region_states.specs.defaults.Defaults.{default_valuation};
ghost use Rattle.region_states.specs.conflicts.Conflicts.{IsConflictAt};
ghost use Rattle.region_states.specs.conflicts.Facts.{is_null_in};
ghost use Rattle.region_states.specs.conflicts.There.{FailsThere, NoneFailsBy};
ghost use Rattle.region_states.specs.declared.conflicts.conflict.Conflict.{Conflict};
ghost use Rattle.region_states.specs.Entities.{focus_entity};
ghost use Rattle.host_states.specs.Hosting.{HostsFocuses};
ghost use Rattle.conflict_laws.specs.States.{ClearStates};
ghost use Rattle.conflict_laws.specs.Told.{NullCell, OwnedColumn};

/// Where a symbol that can be null, or none, is listed in a column that isn't nullable, the state with the usual entity of the region fails by a null, at
/// the cell of the entity's row.
pub fn a_null_fails()
    ensures fails { (basis : Basis) (clear : ClearStates basis) (at : NullCell basis) (place : OwnedColumn basis.schema at.s at.t at.col) (d : State)
        → FailsAt basis.schema kind.Null (place_at place.table.name
        (paired_key basis.schema.model place.pairing (focus_entity basis at.region (default_valuation basis 0 at.region))) place.column.name)
        (clear.given.state at.region (default_valuation basis 0 at.region)) d }
    ensures there { (basis : Basis) → ClearStates basis → (s : SetId) (conflict : Conflict) → IsConflictAt basis s kind.Null conflict → FailsThere basis s kind.Null }
{}

/// Where a legal state leaves null in the row of an entity, some pattern of its set lists a symbol there that can be null, or none.
pub fn a_null_is_told()
    ensures told { (basis : Basis) → IsBasis basis → (s : SetId) → HasFewPartners basis s → FailsThere basis s kind.Null
        → (conflict : Conflict) × IsConflictAt basis s kind.Null conflict }
{}
