ghost use Rattle.std.specs.Prelude.{◌≡◌, IfOk};
ghost use Rattle.groupings.specs.least_fault.Least.{IsLeast};
ghost use Rattle.entity_state.specs.breach_order.Founds.{found_cmp};
ghost use Rattle.state_legality.specs.set_legality.Types.{IsMarked, IsTypeBreach};

use crate::set_legality::types::{is_marked, props_at};
use crate::set_legality::values::broken_rule;
use edm_types::{Entity, EntityModel, EntitySet};
use emc_base::{Memory, PropId, Txt};
use entity_state::{Found, StateRule, place_of};
use groupings::{Finder, earlier_of, first_among};
use std::alloc::Global;

/// Looks at the values of an entity, property by property.
#[derive(Clone, Copy)]
struct Props<'a> {
    model: &'a EntityModel,
    s: usize,
    set: &'a EntitySet,
    i: usize,
    entity: &'a Entity,
}

impl<'a> Finder<PropId, Found> for Props<'a> {
    ghost use Rattle.state_legality.specs.set_legality.Props.{IsPropBreach};

    ghost wrong = { λ x j prop. IsPropBreach x.model.now x.s x.set.now x.i x.entity.now j prop };

    fn find(&self, alloc: Global, j: usize, prop: &PropId) -> Result<Option<Found>, Memory> {
        let Some(declared) = self.model.props.get(prop.index as usize) else {
            return Ok(None);
        };
        let Some(rule) = broken_rule(self.entity, j, declared) else {
            return Ok(None);
        };
        let place = place_of(
            alloc,
            self.model,
            &self.set.name,
            self.entity,
            &declared.name,
        )?;
        let found = Found::at(alloc, rule.number(), &[self.s, self.i, j], place)?;
        Ok(Some(found))
    }
}

/// Looks at the entities of a set: those that break S1, and the values that break S2 or S3.
#[derive(Clone, Copy)]
pub struct SetEntities<'a> {
    pub model: &'a EntityModel,
    pub s: usize,
    pub set: &'a EntitySet,
    /// The types that are the set's element type or under it.
    pub marks: &'a [bool],
}

impl<'a> Finder<Entity, Found> for SetEntities<'a> {
    ghost use Rattle.state_legality.specs.set_legality.Found.{IsEntityBreach};
    ghost use Rattle.state_legality.specs.set_legality.Types.{IsMarked};

    ghost wrong = { λ x i entity. IsEntityBreach x.model.now (IsMarked x.model.now x.marks.now) x.s x.set.now i entity };

    fn find(&self, alloc: Global, i: usize, entity: &Entity) -> Result<Option<Found>, Memory> {
        let props = Props {
            model: self.model,
            s: self.s,
            set: self.set,
            i,
            entity,
        };
        let at_type = find_type(alloc, self, i, entity);
        let at_props = first_among(alloc, &props, props_at(self.model, entity.ty));
        earlier_of(at_type, at_props)
    }
}

// The breach of S1 at an entity, if its type is none that it may have.
fn find_type(
    alloc: Global,
    search: &SetEntities<'_>,
    i: usize,
    entity: &Entity,
) -> Result<Option<Found>, Memory>
    ensures { IfOk result (IsLeast found_cmp (IsTypeBreach search.now.model.now (IsMarked search.now.model.now search.now.marks.now) search.now.s search.now.set.now i entity.now)) }
{
    if is_marked(search.model, search.marks, entity.ty) {
        return Ok(None);
    }
    let part = Txt::of(alloc, "$type")?;
    let place = place_of(alloc, search.model, &search.set.name, entity, &part)?;
    let found = Found::at(alloc, StateRule::Type.number(), &[search.s, i], place)?;
    Ok(Some(found))
}
