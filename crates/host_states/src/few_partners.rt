//! Where no legal state clashes, an entity has few partners by each association that is hosted at it.

ghost use Rattle.std.specs.Prelude.{◌≡◌};
ghost use Rattle.edm_types.specs.declared.model.Mult.TheVariants.{Many};
ghost use Rattle.round_trip.specs.Words.{RoundTrips, SetId};
ghost use Rattle.round_trip.specs.declared.FailKind.TheVariants as kind;
ghost use Rattle.cells.specs.Limits.{IsWithinLimits};
ghost use Rattle.regions.specs.Basis.{Basis, HostedAssoc, partner_end};
ghost use Rattle.regions.specs.region_laws.IsBasis.{IsBasis};
ghost use Rattle.region_states.specs.conflicts.There.{NoneFailsBy};
ghost use Rattle.host_states.specs.Hosting.{HaveFewPartners};
ghost use Rattle.host_states.specs.ManyPartners.{ClashesInRow};

/// Where an association is hosted and its other end is `*`, the state in which an entity has two partners clashes in the entity's row. So a mapping of
/// which no legal state clashes, and one that round-trips, host no such association.
pub fn round_tripping_mappings_have_few_partners()
    ensures clashes { (basis : Basis) → IsBasis basis → IsWithinLimits basis.schema → (s : SetId) (at : HostedAssoc basis s)
        → (partner_end at.host.first_hosts at.assoc).mult ≡ Many → ClashesInRow basis s at.host at.assoc }
    ensures few { (basis : Basis) → IsBasis basis → IsWithinLimits basis.schema → NoneFailsBy basis.schema kind.Clash → HaveFewPartners basis }
    ensures round_trips { (basis : Basis) → IsBasis basis → IsWithinLimits basis.schema → RoundTrips basis.schema → HaveFewPartners basis }
{}
