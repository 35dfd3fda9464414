ghost use Rattle.std.specs.Prelude.{◌≡◌};
ghost use Rattle.round_trip.specs.Words.{AssocId};
ghost use Rattle.regions.specs.Basis.{host_end, partner_end};
ghost use Rattle.region_states.specs.region_basis.BasisOf.{host_by, hosts_told};

use cells::LinkPlace;
use edm_types::{Assoc, End};
use emc_base::SetId;

/// The end of the entities that host.
pub fn host_end(first_hosts: bool, assoc: &Assoc) -> &End
    ensures { result.now ≡ host_end first_hosts assoc.now }
{
    if first_hosts {
        &assoc.first
    } else {
        &assoc.second
    }
}

/// The end of their partners.
pub fn partner_end(first_hosts: bool, assoc: &Assoc) -> &End
    ensures { result.now ≡ partner_end first_hosts assoc.now }
{
    if first_hosts {
        &assoc.second
    } else {
        &assoc.first
    }
}

/// Whether the first end of an association hosts its links; `None` where these aren't hosted at the set.
pub fn hosting_end(set: SetId, assoc: &Assoc, place: LinkPlace) -> Option<bool>
    ensures { (a : AssocId) → host_by set a assoc.now place ≡ hosts_told a result }
{
    match place {
        LinkPlace::Hosted { first_hosts, .. }
            if host_end(first_hosts, assoc).set.index == set.index => { Some(first_hosts) }
        _ => None,
    }
}
