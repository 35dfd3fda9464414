use crate::csdl_lists::raw::{
    RawAssociation, RawAssociationSet, RawEnd, RawEnum, RawMember, RawNav, RawProp, RawSet,
    RawSetEnd, RawType,
};
use emc_base::Txt;
use groupings::Named;

impl Named for RawType {
    ghost name_in = { λ type. type.name };

    fn name(&self) -> &Txt {
        &self.name
    }
}

impl Named for RawEnum {
    ghost name_in = { λ enum. enum.name };

    fn name(&self) -> &Txt {
        &self.name
    }
}

impl Named for RawMember {
    ghost name_in = { λ member. member.name };

    fn name(&self) -> &Txt {
        &self.name
    }
}

impl Named for RawProp {
    ghost name_in = { λ prop. prop.name };

    fn name(&self) -> &Txt {
        &self.name
    }
}

impl Named for RawNav {
    ghost name_in = { λ nav. nav.name };

    fn name(&self) -> &Txt {
        &self.name
    }
}

impl Named for RawAssociation {
    ghost name_in = { λ association. association.name };

    fn name(&self) -> &Txt {
        &self.name
    }
}

/// An end goes by its role.
impl Named for RawEnd {
    ghost name_in = { λ end. end.role };

    fn name(&self) -> &Txt {
        &self.role
    }
}

/// An end of an association set goes by its role.
impl Named for RawSetEnd {
    ghost name_in = { λ end. end.role };

    fn name(&self) -> &Txt {
        &self.role
    }
}

impl Named for RawSet {
    ghost name_in = { λ set. set.name };

    fn name(&self) -> &Txt {
        &self.name
    }
}

impl Named for RawAssociationSet {
    ghost name_in = { λ set. set.name };

    fn name(&self) -> &Txt {
        &self.name
    }
}
