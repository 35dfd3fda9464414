//! Where nothing clashes, two small states that differ at a set have the same tables wherever there is a conflict by which states do.

ghost use Rattle.std.specs.Prelude.{◌≡◌, [], None};
ghost use Rattle.round_trip.specs.Words.{At, EntitySet, FailsAt, key_of, place_at};
ghost use Rattle.round_trip.specs.declared.FailKind.TheVariants as kind;
ghost use Rattle.cells.specs.Limits.{IsWithinLimits};
ghost use Rattle.regions.specs.Basis.{Basis};
ghost use Rattle.regions.specs.region_laws.IsBasis.{IsBasis};
ghost use Rattle.region_states.specs.defaults.Defaults.{default_valuation};
ghost use Rattle.region_states.specs.conflicts.There.{NoneFailsBy};
ghost use Rattle.region_states.specs.Entities.{focus_entity};
ghost use Rattle.host_states.specs.SmallStates.{small_leaving, small_rivals};
ghost use Rattle.conflict_laws.specs.rival.RivalValues.{first_values, second_values};
ghost use Rattle.conflict_laws.specs.same.SameValues.{first_several, with_one, with_other};
ghost use Rattle.conflict_laws.specs.Told.{AbsentRegion, LostProp, RivalRegions};

/// Of two regions that are rivals, of a property that is lost, and of a region that leaves no row, the small parts of the states with their entities have the
/// same tables: what these entities and their partners need, and nothing else.
pub fn small_states_fail()
    ensures rivals { (basis : Basis) → IsBasis basis → IsWithinLimits basis.schema → NoneFailsBy basis.schema kind.Clash → (at : RivalRegions basis) (set : EntitySet)
        → At basis.schema.model.sets at.s.index set
        → FailsAt basis.schema kind.Same (place_at set.name (key_of basis.schema.model (focus_entity basis at.one (first_values basis at.one at.two))) [])
        (small_rivals basis 0 at.one (first_values basis at.one at.two) at.two (second_values basis at.one at.two)).0
        (small_rivals basis 0 at.one (first_values basis at.one at.two) at.two (second_values basis at.one at.two)).1 }
    ensures lost { (basis : Basis) → IsBasis basis → IsWithinLimits basis.schema → NoneFailsBy basis.schema kind.Clash → (at : LostProp basis) (set : EntitySet)
        → At basis.schema.model.sets at.s.index set
        → FailsAt basis.schema kind.Same (place_at set.name (key_of basis.schema.model (focus_entity basis at.region (with_one basis at.region at.p))) [])
        (small_rivals basis 0 at.region (with_one basis at.region at.p) at.region (with_other basis at.region at.p)).0
        (small_rivals basis 0 at.region (with_one basis at.region at.p) at.region (with_other basis at.region at.p)).1 }
    ensures absent { (basis : Basis) → IsBasis basis → IsWithinLimits basis.schema → NoneFailsBy basis.schema kind.Clash → (at : AbsentRegion basis)
        → first_several basis at.region ≡ None → (set : EntitySet) → At basis.schema.model.sets at.s.index set
        → FailsAt basis.schema kind.Same (place_at set.name (key_of basis.schema.model (focus_entity basis at.region (default_valuation basis 0 at.region))) [])
        (small_leaving basis 0 at.region (default_valuation basis 0 at.region)).0 (small_leaving basis 0 at.region (default_valuation basis 0 at.region)).1 }
{}
