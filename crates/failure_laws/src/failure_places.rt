//! Each legal state that fails does so at a set or at the links of an association.

ghost use Rattle.std.specs.Prelude.{◌≡◌, ◌≢◌, ◌⊎◌, []};
ghost use Rattle.round_trip.specs.Words.{Assoc, AssocId, At, EntitySet, FailsAt, Place, RoundTrips, SetId, State};
ghost use Rattle.round_trip.specs.declared.FailKind.{FailKind};
ghost use Rattle.round_trip.specs.declared.FailKind.TheVariants as variant;
ghost use Rattle.cells.specs.Limits.{IsWithinLimits};
ghost use Rattle.regions.specs.Basis.{Basis};
ghost use Rattle.regions.specs.region_laws.IsBasis.{IsBasis};
ghost use Rattle.region_states.specs.conflicts.There.{FailsThere, LinksFailThere, NoneFailsBefore, NoneFailsBy};

/// Where a legal state fails by a kind other than dangling, and none by a kind that is told before it, some legal state fails by it at a set or at the links
/// of an association; and where one fails there, it fails.
pub fn each_failure_is_somewhere()
    ensures there { (basis : Basis) → IsBasis basis → IsWithinLimits basis.schema → (kind : FailKind) → kind ≢ variant.Dangling → NoneFailsBefore basis.schema kind
        → (place : Place) (c d : State) → FailsAt basis.schema kind place c d
        → ((s : SetId) × (set : EntitySet) × At basis.schema.model.sets s.index set × FailsThere basis s kind)
        ⊎ ((a : AssocId) × (assoc : Assoc) × At basis.schema.model.assocs a.index assoc × LinksFailThere basis a kind) }
    ensures fails { (basis : Basis) (s : SetId) (kind : FailKind) → FailsThere basis s kind → (place : Place) × (c : State) × (d : State) × FailsAt basis.schema kind place c d }
    ensures links_fail { (basis : Basis) (a : AssocId) (kind : FailKind) → LinksFailThere basis a kind
        → (place : Place) × (c : State) × (d : State) × FailsAt basis.schema kind place c d }
{}

/// Where no foreign key is declared, nothing dangles; and where besides no legal state fails at a set or at links, none fails.
pub fn a_mapping_round_trips_place_by_place()
    ensures dangling { (basis : Basis) → basis.schema.store.keys ≡ [] → NoneFailsBy basis.schema variant.Dangling }
    ensures none { (basis : Basis) → IsBasis basis → IsWithinLimits basis.schema → (kind : FailKind) → kind ≢ variant.Dangling → NoneFailsBefore basis.schema kind
        → ((s : SetId) (set : EntitySet) → At basis.schema.model.sets s.index set → ¬ FailsThere basis s kind)
        → ((a : AssocId) (assoc : Assoc) → At basis.schema.model.assocs a.index assoc → ¬ LinksFailThere basis a kind) → NoneFailsBy basis.schema kind }
    ensures round_trips { (basis : Basis) → ((kind : FailKind) → NoneFailsBy basis.schema kind) → RoundTrips basis.schema }
{}
