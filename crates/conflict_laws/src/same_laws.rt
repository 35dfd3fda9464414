//! Same tables: where nothing clashes and each fragment agrees, two legal states that differ at a set have the same tables just where a region leaves no
//! row, a property is written to no column, or two regions write alike.

ghost use Rattle.std.specs.Prelude.{◌≡◌, [], Contains, IsTrue, None, Some};
ghost use Rattle.round_trip.specs.Words.{At, EntitySet, FailsAt, PropId, SetId, State, key_of, place_at};
ghost use Rattle.round_trip.specs.declared.FailKind.TheVariants as kind;
ghost use Rattle.cells.specs.Limits.{IsWithinLimits};
ghost use Rattle.regions.specs.Basis.{Basis};
ghost use Rattle.regions.specs.Patterns.{Valuation};
ghost use Rattle.regions.specs.Regions.{regions_of};
ghost use Rattle.regions.specs.declared.region.Region.{Region};
ghost use Rattle.regions.specs.region_laws.IsBasis.{IsBasis};
ghost use Rattle.region_states.specs.defaults.Defaults.{default_valuation};
ghost use Rattle.region_states.specs.conflicts.Conflicts.{IsConflictAt};
ghost use Rattle.region_states.specs.conflicts.SameFacts.{are_rivals, is_absent, is_lost};
ghost use Rattle.region_states.specs.conflicts.There.{FailsThere, NoneFailsBy};
ghost use Rattle.region_states.specs.declared.conflicts.conflict.Conflict.{Conflict};
ghost use Rattle.region_states.specs.Entities.{focus_entity};
ghost use Rattle.host_states.specs.Hosting.{HaveFewPartners, HostsFocuses, HostsRivals, LeavesOut};
ghost use Rattle.conflict_laws.specs.rival.RivalValues.{first_values, second_values};
ghost use Rattle.conflict_laws.specs.same.SameValues.{first_several, with_one, with_other};
ghost use Rattle.conflict_laws.specs.Told.{AbsentRegion, LostProp, RivalRegions};
ghost use Rattle.conflict_laws.specs.States.{RivalStates};

/// Where two regions are rivals, the states with an entity of the one and of the other have the same tables.
pub fn rivals_fail()
    ensures fails { (basis : Basis) (given : RivalStates basis) (at : RivalRegions basis) (set : EntitySet) → At basis.schema.model.sets at.s.index set
        → FailsAt basis.schema kind.Same (place_at set.name (key_of basis.schema.model (focus_entity basis at.one (first_values basis at.one at.two))) [])
        (given.rivals at.one (first_values basis at.one at.two) at.two (second_values basis at.one at.two)).0
        (given.rivals at.one (first_values basis at.one at.two) at.two (second_values basis at.one at.two)).1 }
{}

/// Where a property of a region is lost, the states with entities that differ in it alone have the same tables.
pub fn lost_values_fail()
    ensures fails { (basis : Basis) (given : RivalStates basis) (at : LostProp basis) (set : EntitySet) → At basis.schema.model.sets at.s.index set
        → FailsAt basis.schema kind.Same (place_at set.name (key_of basis.schema.model (focus_entity basis at.region (with_one basis at.region at.p))) [])
        (given.rivals at.region (with_one basis at.region at.p) at.region (with_other basis at.region at.p)).0
        (given.rivals at.region (with_one basis at.region at.p) at.region (with_other basis at.region at.p)).1 }
{}

/// Where a region leaves no row, the states with entities that differ in a property alone have the same tables; or the states with its entity and without it.
pub fn absent_entities_fail()
    ensures several { (basis : Basis) (at : AbsentRegion basis) (p : PropId) → first_several basis at.region ≡ Some p → IsTrue (is_lost basis at.region p) }
    ensures none { (basis : Basis) (given : RivalStates basis) (at : AbsentRegion basis) → first_several basis at.region ≡ None → (set : EntitySet)
        → At basis.schema.model.sets at.s.index set
        → FailsAt basis.schema kind.Same (place_at set.name (key_of basis.schema.model (focus_entity basis at.region (default_valuation basis 0 at.region))) [])
        (given.leaving at.region (default_valuation basis 0 at.region)).0 (given.leaving at.region (default_valuation basis 0 at.region)).1 }
{}

/// Where there is a conflict, some two legal states that differ at the set have the same tables, and where there are such states, there is a conflict.
pub fn same_tables_are_told()
    ensures there { (basis : Basis) → RivalStates basis → (s : SetId) (conflict : Conflict) → IsConflictAt basis s kind.Same conflict → FailsThere basis s kind.Same }
    ensures told { (basis : Basis) → RivalStates basis → NoneFailsBy basis.schema kind.Disagrees → (s : SetId) → FailsThere basis s kind.Same
        → (conflict : Conflict) × IsConflictAt basis s kind.Same conflict }
{}
