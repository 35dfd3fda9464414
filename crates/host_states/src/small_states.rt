//! Small parts of the states that hold an entity of a region: what the entity and its partners need.

ghost use Rattle.std.specs.Prelude.{◌≤◌, ℕ};
ghost use Rattle.cells.specs.Limits.{IsWithinLimits};
ghost use Rattle.regions.specs.Basis.{Basis};
ghost use Rattle.regions.specs.region_laws.IsBasis.{IsBasis};
ghost use Rattle.host_states.specs.Hosting.{HostsFocuses, HostsRivals, LeavesOut};
ghost use Rattle.host_states.specs.SmallStates.{small_focus, small_leaving, small_rivals};

/// What the entity of a region and its partners need holds the entity as the whole state does; of two states one part is taken, so they differ where the
/// states do.
pub fn small_states_serve()
    ensures hosts { (basis : Basis) → IsBasis basis → IsWithinLimits basis.schema → (outer : ℕ) → outer ≤ 4 → HostsFocuses basis outer (small_focus basis outer) }
    ensures rivals { (basis : Basis) → IsBasis basis → IsWithinLimits basis.schema → (outer : ℕ) → outer ≤ 4 → HostsRivals basis outer (small_rivals basis outer) }
    ensures leaves { (basis : Basis) → IsBasis basis → IsWithinLimits basis.schema → (outer : ℕ) → outer ≤ 4 → LeavesOut basis outer (small_leaving basis outer) }
{}
