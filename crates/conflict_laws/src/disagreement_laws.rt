//! Disagreements: where nothing clashes, some legal state and a fragment disagree just where the fragment and a region do: it selects the region and
//! doesn't show its row, or shows this and doesn't select the region.

ghost use Rattle.std.specs.Prelude.{◌≡◌, [], Contains, IsTrue};
ghost use Rattle.round_trip.specs.Words.{FailsAt, Fragment, SetId, State, key_of, place_at};
ghost use Rattle.round_trip.specs.declared.FailKind.TheVariants as kind;
ghost use Rattle.cells.specs.Limits.{IsWithinLimits};
ghost use Rattle.regions.specs.Basis.{Basis};
ghost use Rattle.regions.specs.Patterns.{Valuation};
ghost use Rattle.regions.specs.Regions.{regions_of};
ghost use Rattle.regions.specs.declared.pattern.Focus.TheVariants as focus;
ghost use Rattle.regions.specs.declared.region.Region.{Region};
ghost use Rattle.regions.specs.region_laws.IsBasis.{IsBasis};
ghost use Rattle.regions.specs.region_laws.Partners.{HasFewPartners};
ghost use Rattle.region_states.specs.defaults.Defaults.{default_valuation};
ghost use Rattle.region_states.specs.conflicts.Conflicts.{IsConflictAt};
ghost use Rattle.region_states.specs.conflicts.Facts.{differs_at};
ghost use Rattle.region_states.specs.conflicts.There.{FailsThere, NoneFailsBy};
ghost use Rattle.region_states.specs.declared.conflicts.conflict.Conflict.{Conflict};
ghost use Rattle.region_states.specs.Entities.{focus_entity};
ghost use Rattle.host_states.specs.Hosting.{HostsFocuses};
ghost use Rattle.conflict_laws.specs.States.{ClearStates};
ghost use Rattle.conflict_laws.specs.Told.{DifferingFragment};

/// Where a fragment and a region disagree, so do the fragment and the state with the usual entity of the region, at the entity's key. The same of the
/// fragment of links that are hosted at the set.
pub fn a_disagreement_fails()
    ensures fails { (basis : Basis) (clear : ClearStates basis) (at : DifferingFragment basis) (d : State) → FailsAt basis.schema kind.Disagrees
        (place_at at.fragment.place (key_of basis.schema.model (focus_entity basis at.region (default_valuation basis 0 at.region))) [])
        (clear.given.state at.region (default_valuation basis 0 at.region)) d }
    ensures there { (basis : Basis) → ClearStates basis → (s : SetId) (conflict : Conflict) → IsConflictAt basis s kind.Disagrees conflict
        → FailsThere basis s kind.Disagrees }
{}

/// Where a legal state and a fragment of a set, or of links that are hosted at it, disagree, so do the fragment and a region of the set.
pub fn a_disagreement_is_told()
    ensures told { (basis : Basis) → ClearStates basis → (s : SetId) → HasFewPartners basis s → FailsThere basis s kind.Disagrees
        → (conflict : Conflict) × IsConflictAt basis s kind.Disagrees conflict }
{}
