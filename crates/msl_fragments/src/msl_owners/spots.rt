ghost use Rattle.std.specs.Prelude.{◌≡◌, IfOk};
ghost use Rattle.json_form.specs.declared.pointer.Step.TheVariants.{Item, Member};
ghost use Rattle.layouts.specs.Inside.{after};

use emc_base::{Memory, Txt};
use json_form::Step;
use layouts::{Fault, Rule};
use std::alloc::Global;

/// Where a writer stands in a mapping document.
#[derive(Clone, Copy)]
pub enum Spot {
    /// The mapping of an association set, by its place in its list.
    Link(u32),
    /// A fragment, by the places of the mapping of its entity set, of its type mapping in that, and of itself in that.
    Fragment(u32, u32, u32),
}

impl Spot {
    ghost use Rattle.msl_fragments.specs.msl_owners.Spots.{place_of};

    /// The rule is broken there. `Memory` comes where memory ran out.
    pub fn fault(self, alloc: Global, rule: Rule) -> Result<Fault, Memory>
        ensures { IfOk result (λ fault. fault ≡ record { rule = rule; place = place_of self }) }
    {
        let here = Fault::here(alloc, rule);
        let inside = match self {
            Spot::Link(link) => in_list(alloc, "AssociationSetMapping", link, here)?,
            Spot::Fragment(set, types, fragment) => {
                let of_types = in_list(alloc, "MappingFragment", fragment, here)?;
                let of_set = in_list(alloc, "EntityTypeMapping", types, of_types)?;
                in_list(alloc, "EntitySetMapping", set, of_set)?
            }
        };
        let fault = inside.after(Step::Member(Txt::of(alloc, "EntityContainerMapping")?))?;
        Ok(fault)
    }
}

// What is wrong in the item of a list, seen from the object that has the list at a member.
fn in_list(alloc: Global, member: &str, item: u32, inside: Fault) -> Result<Fault, Memory>
    ensures { IfOk result (λ seen. seen ≡ after (Member member.now) (after (Item item) inside)) }
{
    let of_item = inside.after(Step::Item(item))?;
    let seen = of_item.after(Step::Member(Txt::of(alloc, member)?))?;
    Ok(seen)
}
