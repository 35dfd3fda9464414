ghost use Rattle.std.specs.Prelude.{◌≡◌, ◌∷◌, [], IfOk, option_map};
ghost use Rattle.json_form.specs.declared.pointer.Step.TheVariants.{Member};
ghost use Rattle.groupings.specs.least_fault.Least.{Among, IsLeast};
ghost use Rattle.layouts.specs.Faults.{fault_cmp};
ghost use Rattle.layouts.specs.Inside.{after};
ghost use Rattle.layouts.specs.rule_places.Places.{InItems, InList, item_fault};

use crate::rule_places::sites::fault_at;
use crate::{Fault, Rule};
use emc_base::{Memory, Seq, Txt};
use groupings::{Finder, first_among};
use json_form::Step;
use std::alloc::Global;

/// What was found at a node, seen from the node that the step leads from.
pub fn behind(step: Step, found: Option<Fault>) -> Result<Option<Fault>, Memory>
    ensures { IfOk result (λ seen. seen ≡ option_map (after step) found) }
{
    match found {
        None => Ok(None),
        Some(fault) => {
            let seen = fault.after(step)?;
            Ok(Some(seen))
        }
    }
}

/// Looks at the items of a list, each of which is reached by a step of its own.
#[derive(Clone, Copy)]
struct Items<'a, S> {
    search: &'a S,
}

impl<'a, T, S: Finder<T, Fault>> Finder<T, Fault> for Items<'a, S> {
    ghost use Rattle.layouts.specs.rule_places.Places.{InItem};

    ghost wrong = { λ s i item. InItem (S.wrong s.search.now) i item };

    fn find(&self, alloc: Global, place: usize, item: &T) -> Result<Option<Fault>, Memory> {
        let Ok(step) = u32::try_from(place) else {
            return Err(Memory);
        };
        let found = self.search.find(alloc, place, item)?;
        let seen = behind(Step::Item(step), found)?;
        Ok(seen)
    }
}

/// The least of what is wrong with the items of the list that stands at a member, seen from the object that has the member.
pub fn first_in_list<T, S: Finder<T, Fault>>(
    alloc: Global,
    member: &str,
    search: &S,
    items: &[T],
) -> Result<Option<Fault>, Memory>
    ensures { IfOk result (λ found. IsLeast fault_cmp (InList member.now (S.wrong search.now) items.now) found) }
{
    let found = first_among(alloc, &Items { search }, items)?;
    let seen = behind_member(alloc, member, found)?;
    Ok(seen)
}

/// The rule is broken at this member of the item at a place, if there is one; seen from the object that has the list at a member.
pub fn fault_at_item(
    alloc: Global,
    rule: Rule,
    list: &str,
    place: Option<usize>,
    member: &str,
) -> Result<Option<Fault>, Memory>
    ensures { IfOk result (λ found. found ≡ item_fault rule list.now (Member member.now ∷ []) place) }
{
    let Some(place) = place else {
        return Ok(None);
    };
    let Ok(step) = u32::try_from(place) else {
        return Err(Memory);
    };
    let inside = fault_at(alloc, rule, member)?.after(Step::Item(step))?;
    let fault = inside.after(Step::Member(Txt::of(alloc, list)?))?;
    Ok(Some(fault))
}

/// The rule is broken at the item of a place itself, if there is one; seen from the object that has the list at a member.
pub fn fault_on_item(
    alloc: Global,
    rule: Rule,
    list: &str,
    place: Option<usize>,
) -> Result<Option<Fault>, Memory>
    ensures { IfOk result (λ found. found ≡ item_fault rule list.now [] place) }
{
    let Some(place) = place else {
        return Ok(None);
    };
    let Ok(step) = u32::try_from(place) else {
        return Err(Memory);
    };
    let inside = Fault::here(alloc, rule).after(Step::Item(step))?;
    let fault = inside.after(Step::Member(Txt::of(alloc, list)?))?;
    Ok(Some(fault))
}

/// What was found in the object at a member, seen from the object that has the member.
pub fn behind_member(
    alloc: Global,
    member: &str,
    found: Option<Fault>,
) -> Result<Option<Fault>, Memory>
    ensures { IfOk result (λ seen. seen ≡ option_map (after (Member member.now)) found) }
{
    let seen = behind(Step::Member(Txt::of(alloc, member)?), found)?;
    Ok(seen)
}

/// The least of what is wrong with the items of the list at a member.
pub fn first_at<T, S: Finder<T, Fault>>(
    alloc: Global,
    member: &str,
    search: &S,
    items: &Seq<T>,
) -> Result<Option<Fault>, Memory>
    ensures { IfOk result (λ found. IsLeast fault_cmp (InList member.now (S.wrong search.now) items.now) found) }
{
    let found = first_in_list(alloc, member, search, items.as_slice())?;
    Ok(found)
}
