//! Conflicts are exact, kind by kind: there is one of a kind at a set exactly where some legal state fails by it there.
#![tactic(auto)]

mod clash_laws;
mod disagreement_laws;
mod null_laws;
mod rival_laws;
mod same_laws;
mod small_laws;

ghost use Rattle.std.specs.Prelude.{◌↔◌};
ghost use Rattle.round_trip.specs.Words.{SetId};
ghost use Rattle.round_trip.specs.declared.FailKind.{FailKind};
ghost use Rattle.cells.specs.Limits.{IsWithinLimits};
ghost use Rattle.regions.specs.Basis.{Basis};
ghost use Rattle.regions.specs.region_laws.IsBasis.{IsBasis};
ghost use Rattle.region_states.specs.conflicts.Conflicts.{IsConflictAt};
ghost use Rattle.region_states.specs.conflicts.There.{FailsThere, NoneFailsBefore};
ghost use Rattle.region_states.specs.declared.conflicts.conflict.Conflict.{Conflict};

pub use clash_laws::{
    a_clash_fails, a_clash_is_told, patterns_are_clear, symbols_that_clash_differ,
};
pub use disagreement_laws::{a_disagreement_fails, a_disagreement_is_told};
pub use null_laws::{a_null_fails, a_null_is_told};
pub use rival_laws::{alike_patterns_match, matching_patterns_are_alike, regions_are_told_apart};
pub use same_laws::{absent_entities_fail, lost_values_fail, rivals_fail, same_tables_are_told};
pub use small_laws::small_states_fail;

/// Where no legal state fails by a kind that is told before this one, there is a conflict of the kind at a set exactly where some legal state fails by it
/// there.
pub fn conflicts_are_exact()
    ensures exact { (basis : Basis) → IsBasis basis → IsWithinLimits basis.schema → (kind : FailKind)
        → NoneFailsBefore basis.schema kind → (s : SetId) → ((conflict : Conflict) × IsConflictAt basis s kind conflict) ↔ FailsThere basis s kind }
{}
