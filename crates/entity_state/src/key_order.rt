ghost use Rattle.std.specs.Prelude.{◌≡◌, IfOk, map};
ghost use Rattle.std.specs.List.{AllZip};
ghost use Rattle.entity_state.specs.InOrder.{IsInOrderOf, IsSortedState, entity_cmp, lent, lent_state, link_cmp};

use crate::keys::{compare_entities, compare_links};
use crate::state::EntityState;
use edm_types::{Entity, EntityModel, Link};
use emc_base::{Memory, Seq};
use std::alloc::Global;

// The lists of a state, lent in the order of keys.
#[derive(Drop)]
pub(crate) struct SortedState<'s> {
    pub(crate) entities: Vec<Vec<&'s Entity>>,
    pub(crate) links: Vec<Vec<&'s Link>>,
}

// Lends a state's lists, each in the order of keys. Those of one key stay in the order of their list.
pub(crate) fn sorted_state<'s>(
    alloc: Global,
    model: &EntityModel,
    state: &'s EntityState,
) -> Result<SortedState<'s>, Memory>
    ensures { IfOk result (λ sorted. IsSortedState model.now state.now (lent_state sorted)) }
{
    let entities = sorted_entities(alloc, model, state.entity_lists())?;
    let links = sorted_links(alloc, state.link_lists())?;
    Ok(SortedState { entities, links })
}

fn sorted_entities<'s>(
    alloc: Global,
    model: &EntityModel,
    lists: &'s [Seq<Entity>],
) -> Result<Vec<Vec<&'s Entity>>, Memory>
    ensures { IfOk result (λ sorted. AllZip (IsInOrderOf (entity_cmp model.now)) lists.now (map (λ list. lent list.items) sorted.items)) }
{
    let mut sorted = Vec::new(alloc);
    for list in lists {
        sorted.push(entities_in_order(alloc, model, list.as_slice())?)?;
    }
    Ok(sorted)
}

fn sorted_links<'s>(alloc: Global, lists: &'s [Seq<Link>]) -> Result<Vec<Vec<&'s Link>>, Memory>
    ensures { IfOk result (λ sorted. AllZip (IsInOrderOf link_cmp) lists.now (map (λ list. lent list.items) sorted.items)) }
{
    let mut sorted = Vec::new(alloc);
    for list in lists {
        sorted.push(links_in_order(alloc, list.as_slice())?)?;
    }
    Ok(sorted)
}

fn entities_in_order<'s>(
    alloc: Global,
    model: &EntityModel,
    entities: &'s [Entity],
) -> Result<Vec<&'s Entity>, Memory>
    ensures { IfOk result (λ sorted. IsInOrderOf (entity_cmp model.now) entities.now (lent sorted.items)) }
{
    let mut sorted = lent(alloc, entities)?;
    sorted.sort_by(|one, two| compare_entities(model, one, two))?;
    Ok(sorted)
}

fn links_in_order<'s>(alloc: Global, links: &'s [Link]) -> Result<Vec<&'s Link>, Memory>
    ensures { IfOk result (λ sorted. IsInOrderOf link_cmp links.now (lent sorted.items)) }
{
    let mut sorted = lent(alloc, links)?;
    sorted.sort_by(|one, two| compare_links(one, two))?;
    Ok(sorted)
}

fn lent<'s, T>(alloc: Global, items: &'s [T]) -> Result<Vec<&'s T>, Memory>
    ensures { IfOk result (λ all. lent all.items ≡ items.now) }
{
    let mut all = Vec::new(alloc);
    for item in items {
        all.push(item)?;
    }
    Ok(all)
}
