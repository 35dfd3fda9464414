ghost use Rattle.std.specs.Prelude.{◌≡◌, ◌∷◌, ◌++◌, [], codes, IfOk, OnOk};
ghost use Rattle.json_form.specs.declared.pointer.Step.TheVariants.{Member};
ghost use Rattle.json_form.specs.Pointers.{pointer_of};
ghost use Rattle.msl_rules.specs.Sites.{at_item, fragment_place, link_place};

use emc_base::{Memory, Txt, narrow};
use json_form::{Step, pointer_of};
use std::alloc::Global;

/// The pointer of a fragment, by the places of its set's mapping, of its type mapping and of itself in their lists.
pub(super) fn fragment_place(
    alloc: Global,
    set: usize,
    types: usize,
    fragment: usize,
) -> Result<Txt, Memory>
    ensures { IfOk result (λ place. place ≡ pointer_of (fragment_place set types fragment)) }
{
    let mut steps = container_steps(alloc)?;
    push_item(alloc, &mut steps, "EntitySetMapping", set)?;
    push_item(alloc, &mut steps, "EntityTypeMapping", types)?;
    push_item(alloc, &mut steps, "MappingFragment", fragment)?;
    pointer_of(alloc, steps.as_slice())
}

/// The pointer of an association set's mapping, by its place in its list.
pub(super) fn link_place(alloc: Global, link: usize) -> Result<Txt, Memory>
    ensures { IfOk result (λ place. place ≡ pointer_of (link_place link)) }
{
    let mut steps = container_steps(alloc)?;
    push_item(alloc, &mut steps, "AssociationSetMapping", link)?;
    pointer_of(alloc, steps.as_slice())
}

// The step to what is mapped.
fn container_steps(alloc: Global) -> Result<Vec<Step>, Memory>
    ensures { IfOk result (λ steps. steps.items ≡ Member (codes "EntityContainerMapping") ∷ []) }
{
    let mut steps = Vec::new(alloc);
    steps.push(Step::Member(Txt::of(alloc, "EntityContainerMapping")?))?;
    Ok(steps)
}

// Two steps more: to the list at a member, and to the item at a place of it.
fn push_item(alloc: Global, steps: &mut Vec<Step>, member: &str, item: usize) -> Result<(), Memory>
    ensures { OnOk result (steps.new.items ≡ steps.old.items ++ at_item member.now item []) }
{
    steps.push(Step::Member(Txt::of(alloc, member)?))?;
    steps.push(Step::Item(narrow(item)?))?;
    Ok(())
}
