ghost use Rattle.std.specs.Prelude.{◌≡◌, length, map, IfOk};
ghost use Rattle.graphs.specs.base_chains.Chains.{base_at};
ghost use Rattle.graphs.specs.base_chains.Walks.{IsBasesFirst};
ghost use Rattle.csdl_meaning.specs.Kinds.{enum_kind};
ghost use Rattle.csdl_meaning.specs.Meaning.{props_in, types_in};
ghost use Rattle.csdl_meaning.specs.ModelMeaning.{meaning};
ghost use Rattle.csdl_meaning.specs.csdl_making.Making.{AreStarts};

use crate::csdl_making::associations::assocs_in;
use crate::csdl_making::forest::forest_in;
use crate::csdl_making::ids::starts_of;
use crate::csdl_making::kinds::enum_kinds;
use crate::csdl_making::props::props_in;
use crate::csdl_making::sets::sets_in;
use crate::csdl_making::sizes::keep_kinds_small;
use crate::csdl_making::types::types_in;
use csdl_names::{Lookups, RawModel};
use edm_types::{Assoc, EntityModel, EntitySet, EntityType, Prop};
use emc_base::{Kind, Memory, Seq, Txt, both};
use std::alloc::Global;

/// The model that a document means, from its lists, and an order of its types in which each follows its base. `Memory` comes where memory
/// ran out, where a number is past those of a model (an id or a bound of 32 bits, a member of 64), and where the kinds of all properties
/// would hold more than 134,217,728 numbers together, each property those of its enumeration without repeats.
pub fn make_model(
    alloc: Global,
    lookups: &Lookups<'_>,
    order: &[usize],
) -> Result<EntityModel, Memory>
    requires order { IsBasesFirst (base_at lookups.now.bases.now) (length lookups.now.bases.now) order.now }
    ensures { IfOk result (λ made. made ≡ meaning lookups.now.model.now) }
{
    let starts = starts_of(alloc, lookups.model)?;
    let enums = enum_kinds(alloc, &lookups.model.enums)?;
    keep_kinds_small(lookups, &enums)?;
    model_of(alloc, lookups, order, &starts, &enums)
}

// The model, by where the properties of each type begin and by the kinds of all enumerations.
fn model_of(
    alloc: Global,
    lookups: &Lookups<'_>,
    order: &[usize],
    starts: &Seq<usize>,
    enums: &Seq<Kind>,
) -> Result<EntityModel, Memory>
    requires order { IsBasesFirst (base_at lookups.now.bases.now) (length lookups.now.bases.now) order.now }
    requires starts { AreStarts lookups.now.model.now starts.now }
    requires enums { enums.now ≡ map enum_kind lookups.now.model.now.enums }
    ensures { IfOk result (λ made. made ≡ meaning lookups.now.model.now) }
{
    let names = names_of(alloc, lookups.model);
    let members = members_of(alloc, lookups, order, starts, enums);
    let sets = sets_of(alloc, lookups, starts);
    let forest = forest_in(alloc, lookups);
    let (head, tail) = both(both(names, members), both(sets, forest))?;
    let ((namespace, alias, container), (types, props)) = head;
    let ((sets, assocs), forest) = tail;
    Ok(EntityModel {
        namespace,
        alias,
        container,
        types,
        props,
        forest,
        sets,
        assocs,
    })
}

// The names of the model and of its container.
fn names_of(alloc: Global, model: &RawModel) -> Result<(Txt, Option<Txt>, Txt), Memory>
    ensures { IfOk result (λ names. names ≡ (model.now.namespace, model.now.alias, model.now.container.name)) }
{
    let namespace = model.namespace.copy(alloc)?;
    let alias = copy_of(alloc, &model.alias)?;
    let container = model.container.name.copy(alloc)?;
    Ok((namespace, alias, container))
}

// The types and the properties.
fn members_of(
    alloc: Global,
    lookups: &Lookups<'_>,
    order: &[usize],
    starts: &Seq<usize>,
    enums: &Seq<Kind>,
) -> Result<(Seq<EntityType>, Seq<Prop>), Memory>
    requires order { IsBasesFirst (base_at lookups.now.bases.now) (length lookups.now.bases.now) order.now }
    requires starts { AreStarts lookups.now.model.now starts.now }
    requires enums { enums.now ≡ map enum_kind lookups.now.model.now.enums }
    ensures { IfOk result (λ members. members ≡ (types_in lookups.now.model.now, props_in lookups.now.model.now)) }
{
    let types = types_in(alloc, lookups, starts, order)?;
    let props = props_in(alloc, lookups, enums)?;
    Ok((types, props))
}

// The entity sets and the association sets.
fn sets_of(
    alloc: Global,
    lookups: &Lookups<'_>,
    starts: &Seq<usize>,
) -> Result<(Seq<EntitySet>, Seq<Assoc>), Memory>
    requires starts { AreStarts lookups.now.model.now starts.now }
    ensures { IfOk result (λ sets. sets ≡ ((meaning lookups.now.model.now).sets, (meaning lookups.now.model.now).assocs)) }
{
    let sets = sets_in(alloc, lookups)?;
    let assocs = assocs_in(alloc, lookups, starts)?;
    Ok((sets, assocs))
}

// A copy of a text, if there is one.
fn copy_of(alloc: Global, text: &Option<Txt>) -> Result<Option<Txt>, Memory>
    ensures { IfOk result (λ copy. copy ≡ text.now) }
{
    match text {
        None => Ok(None),
        Some(text) => Ok(Some(text.copy(alloc)?)),
    }
}
