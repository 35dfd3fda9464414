//! The states that are shown of a conflict fail as it says, and hold nothing that the failure doesn't need.

ghost use Rattle.std.specs.Prelude.{IsTrue, unwrap_or};
ghost use Rattle.round_trip.specs.Words.{FailsAt, Place};
ghost use Rattle.cells.specs.Limits.{IsWithinLimits};
ghost use Rattle.regions.specs.Basis.{Basis};
ghost use Rattle.regions.specs.region_laws.IsBasis.{IsBasis};
ghost use Rattle.region_states.specs.conflicts.Conflicts.{is_fact, kind_of};
ghost use Rattle.region_states.specs.conflicts.There.{NoneFailsBefore};
ghost use Rattle.region_states.specs.declared.conflicts.conflict.Conflict.{Conflict};
ghost use Rattle.failure_laws.specs.Facts.{IsSo, TellsOfOne};
ghost use Rattle.failure_laws.specs.Places.{IsPlaceOf};
ghost use Rattle.failure_laws.specs.Witnesses.{witness_of};

/// Whether what a conflict tells is so is computed, where no legal state fails by a kind that is told before its own.
pub fn facts_are_computed()
    ensures computed { (basis : Basis) → IsBasis basis → IsWithinLimits basis.schema → (conflict : Conflict) → TellsOfOne basis conflict
        → NoneFailsBefore basis.schema (kind_of conflict) → IsSo basis conflict → IsTrue (is_fact basis conflict) }
    ensures so { (basis : Basis) → IsBasis basis → IsWithinLimits basis.schema → (conflict : Conflict) → TellsOfOne basis conflict
        → NoneFailsBefore basis.schema (kind_of conflict) → IsTrue (is_fact basis conflict) → IsSo basis conflict }
{}

/// Where what a conflict tells is so, and no legal state fails by a kind that is told before its own, the states that are shown of it fail by its kind, at each
/// place that is told of it.
pub fn witnesses_fail()
    ensures fails { (basis : Basis) → IsBasis basis → IsWithinLimits basis.schema → (conflict : Conflict) → TellsOfOne basis conflict → IsSo basis conflict
        → NoneFailsBefore basis.schema (kind_of conflict) → (place : Place) → IsPlaceOf basis conflict place
        → FailsAt basis.schema (kind_of conflict) place (witness_of basis conflict).0 (unwrap_or (witness_of basis conflict).1 (witness_of basis conflict).0) }
{}
