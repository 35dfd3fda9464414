ghost use Rattle.std.specs.Prelude.{◌≡◌};
ghost use Rattle.schema_laws.specs.sound_demand.Deriving.{derives};
ghost use Rattle.regions.specs.Basis.{host_end, partner_end};
ghost use Rattle.regions.specs.Regions.{flag_values};

use crate::region_lists::base_types::derives;
use edm_types::{Assoc, EntityModel, Mult};
use emc_base::TypeId;
use region_states::{host_end, partner_end};

// Whether an entity of a type has a link that its end hosts: each answer that there may be.
pub(super) fn flag_values(
    model: &EntityModel,
    ty: TypeId,
    first_hosts: bool,
    assoc: &Assoc,
) -> &'static [bool]
    ensures { result.now ≡ flag_values (derives model.now ty (host_end first_hosts assoc.now).ty) (partner_end first_hosts assoc.now).mult }
{
    if !derives(model, ty, host_end(first_hosts, assoc).ty) {
        return &[false];
    }
    match partner_end(first_hosts, assoc).mult {
        Mult::ZeroOrOne => &[false, true],
        Mult::One | Mult::Many => &[true],
    }
}
