use crate::msl_lists::raw::{RawEndMapping, RawLinkMapping, RawSetMapping};
use emc_base::Txt;
use groupings::Named;

impl Named for RawSetMapping {
    ghost name_in = { λ set. set.name };

    fn name(&self) -> &Txt {
        &self.name
    }
}

impl Named for RawLinkMapping {
    ghost name_in = { λ link. link.name };

    fn name(&self) -> &Txt {
        &self.name
    }
}

/// An end goes by its role.
impl Named for RawEndMapping {
    ghost name_in = { λ end. end.role };

    fn name(&self) -> &Txt {
        &self.role
    }
}
