ghost use Rattle.std.specs.Prelude.{◌≡◌, ◌++◌, map, IfOk, OnOk};
ghost use Rattle.csdl_meaning.specs.Kinds.{enum_kind};
ghost use Rattle.csdl_meaning.specs.Meaning.{prop_of, props_in};

use crate::csdl_making::ids::type_id;
use crate::csdl_making::kinds::kind_of;
use csdl_names::{Lookups, RawProp};
use edm_types::Prop;
use emc_base::{Kind, Memory, Seq, both};
use std::alloc::Global;

/// The declared properties of all types, by the kinds of all enumerations.
pub(super) fn props_in(
    alloc: Global,
    lookups: &Lookups<'_>,
    enums: &Seq<Kind>,
) -> Result<Seq<Prop>, Memory>
    requires enums { enums.now ≡ map enum_kind lookups.now.model.now.enums }
    ensures { IfOk result (λ props. props ≡ props_in lookups.now.model.now) }
{
    let mut props = Seq::empty(alloc);
    for (place, ty) in lookups.model.types.as_slice().iter().enumerate() {
        put_props(alloc, lookups, enums, place, &ty.props, &mut props)?;
    }
    Ok(props)
}

// Puts the properties that a type declares behind the others.
fn put_props(
    alloc: Global,
    lookups: &Lookups<'_>,
    enums: &Seq<Kind>,
    owner: usize,
    declared: &Seq<RawProp>,
    props: &mut Seq<Prop>,
) -> Result<(), Memory>
    requires enums { enums.now ≡ map enum_kind lookups.now.model.now.enums }
    ensures { OnOk result (props.new ≡ props.old ++ map (prop_of lookups.now.model.now owner) declared.now) }
{
    for prop in declared.as_slice() {
        props.push(make_prop(alloc, lookups, enums, owner, prop)?)?;
    }
    Ok(())
}

fn make_prop(
    alloc: Global,
    lookups: &Lookups<'_>,
    enums: &Seq<Kind>,
    owner: usize,
    prop: &RawProp,
) -> Result<Prop, Memory>
    requires enums { enums.now ≡ map enum_kind lookups.now.model.now.enums }
    ensures { IfOk result (λ made. made ≡ prop_of lookups.now.model.now owner prop.now) }
{
    let owner = type_id(owner)?;
    let name = prop.name.copy(alloc);
    let kind = kind_of(alloc, lookups, enums, prop);
    let (name, kind) = both(name, kind)?;
    Ok(Prop {
        owner,
        name,
        kind,
        nullable: prop.nullable,
    })
}
