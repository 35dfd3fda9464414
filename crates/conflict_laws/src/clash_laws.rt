//! Clashes: some legal state gives a cell two values just where a pattern lists two symbols in it that can differ.

ghost use Rattle.std.specs.Prelude.{◌≡◌, ◌≢◌, Contains, IsTrue, List};
ghost use Rattle.round_trip.specs.Words.{ColId, Column, FailsAt, Pair, SetId, State, Table, TableId, place_at};
ghost use Rattle.round_trip.specs.FailsAt.{HasColumn};
ghost use Rattle.round_trip.specs.declared.FailKind.TheVariants as kind;
ghost use Rattle.schema_laws.specs.state_demand.Owners.{IsOwned, paired_key};
ghost use Rattle.cells.specs.Limits.{IsWithinLimits};
ghost use Rattle.regions.specs.Basis.{Basis};
ghost use Rattle.regions.specs.Patterns.{Valuation, pattern_of, value_under};
ghost use Rattle.regions.specs.Regions.{regions_of};
ghost use Rattle.regions.specs.declared.pattern.Focus.TheVariants as focus;
ghost use Rattle.regions.specs.declared.pattern.PatternRow.{PatternRow};
ghost use Rattle.regions.specs.declared.pattern.Symbol.{Symbol};
ghost use Rattle.regions.specs.declared.region.Region.{Region};
ghost use Rattle.regions.specs.region_laws.IsBasis.{IsBasis};
ghost use Rattle.regions.specs.region_laws.pattern.Described.{HasNoClashes};
ghost use Rattle.region_states.specs.defaults.Admissible.{IsAdmissible};
ghost use Rattle.region_states.specs.conflicts.Conflicts.{IsConflictAt};
ghost use Rattle.region_states.specs.conflicts.Facts.{is_clash};
ghost use Rattle.region_states.specs.conflicts.There.{FailsThere, NoneFailsBy};
ghost use Rattle.region_states.specs.declared.conflicts.conflict.Conflict.{Conflict};
ghost use Rattle.region_states.specs.Entities.{focus_entity};
ghost use Rattle.host_states.specs.Hosting.{HostsFocuses};
ghost use Rattle.conflict_laws.specs.clash.ClashValues.{clash_values};
ghost use Rattle.conflict_laws.specs.States.{FocusStates, ClearStates};
ghost use Rattle.conflict_laws.specs.Told.{ClashingCell, OwnedColumn};
ghost use Rattle.conflict_laws.specs.rival.Alike.{IsClear};

/// Two symbols of a cell that can differ do so by some admissible values.
pub fn symbols_that_clash_differ()
    ensures values { (basis : Basis) → IsBasis basis → IsWithinLimits basis.schema → (at : ClashingCell basis)
        → IsAdmissible basis 0 at.region (clash_values basis at.region at.one at.two)
        × (value_under (clash_values basis at.region at.one at.two) at.one ≢ value_under (clash_values basis at.region at.one at.two) at.two) }
{}

/// Where a pattern lists two symbols in a cell that can differ, the state with an entity of the region fails by a clash, at the cell of the entity's row.
pub fn a_clash_fails()
    ensures fails { (basis : Basis) (given : FocusStates basis) (at : ClashingCell basis) (place : OwnedColumn basis.schema at.s at.t at.col) (d : State)
        → FailsAt basis.schema kind.Clash (place_at place.table.name
        (paired_key basis.schema.model place.pairing (focus_entity basis at.region (clash_values basis at.region at.one at.two))) place.column.name)
        (given.state at.region (clash_values basis at.region at.one at.two)) d }
    ensures there { (basis : Basis) → FocusStates basis → (s : SetId) (conflict : Conflict) → IsConflictAt basis s kind.Clash conflict
        → FailsThere basis s kind.Clash }
{}

/// Where a legal state gives a cell two values, in the row of an entity that hosts few links, some pattern of its set lists two symbols in a cell that
/// can differ.
pub fn a_clash_is_told()
    ensures told { (basis : Basis) → IsBasis basis → IsWithinLimits basis.schema → (s : SetId) → FailsThere basis s kind.Clash
        → (conflict : Conflict) × IsConflictAt basis s kind.Clash conflict }
{}

/// Where no legal state clashes, no pattern does.
pub fn patterns_are_clear()
    ensures clear { (basis : Basis) → ClearStates basis → (s : SetId) (region : Region) → Contains (regions_of basis s) region → IsClear basis region }
{}
