//! For each region of a set legal states that hold an entity of it: one, two that differ in this entity alone, one without it, a base to which nothing refers, and small parts of these.
#![tactic(auto)]

pub mod base_states;
mod few_partners;
mod small_states;

ghost use Rattle.std.specs.Prelude.{◌≤◌, ℕ};
ghost use Rattle.cells.specs.Limits.{IsWithinLimits};
ghost use Rattle.regions.specs.Basis.{Basis};
ghost use Rattle.regions.specs.region_laws.IsBasis.{IsBasis};
ghost use Rattle.host_states.specs.Hosting.{HostsFocuses, HostsRivals, LeavesOut};
ghost use Rattle.host_states.specs.FocusStates.{focus_state, leaving_states, rival_states};

pub use few_partners::round_tripping_mappings_have_few_partners;
pub use small_states::small_states_serve;

/// For each region and admissible values a legal state holds an entity that has them, with its partners; for two regions of a set two states differ in such
/// entities alone; and an entity that is told by its key is left out of some state.
pub fn regions_have_states()
    ensures hosts { (basis : Basis) → IsBasis basis → IsWithinLimits basis.schema → (outer : ℕ) → outer ≤ 4 → HostsFocuses basis outer (focus_state basis outer) }
    ensures rivals { (basis : Basis) → IsBasis basis → IsWithinLimits basis.schema → (outer : ℕ) → outer ≤ 4 → HostsRivals basis outer (rival_states basis outer) }
    ensures leaves { (basis : Basis) → IsBasis basis → IsWithinLimits basis.schema → (outer : ℕ) → outer ≤ 4 → LeavesOut basis outer (leaving_states basis outer) }
{}
