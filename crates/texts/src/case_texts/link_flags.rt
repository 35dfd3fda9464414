ghost use Rattle.std.specs.Prelude.{◌≡◌, IfOk, map};
ghost use Rattle.serde_json.specs.View.{members_view, view};
ghost use Rattle.json_form.specs.Trees.{object_of, put_all};
ghost use Rattle.cells.specs.Parts.{AreParts};
ghost use Rattle.emc_base.specs.Lists.{At};
ghost use Rattle.region_states.specs.region_basis.BasisOf.{basis_of, host_by};
ghost use Rattle.texts.specs.case_texts.CaseTree.{link_member};

use crate::case_texts::names::assoc_name;
use cells::{LinkPlace, Parts};
use edm_types::Assoc;
use emc_base::{AssocId, Memory};
use json_form::object_tree;
use region_states::hosting_end;
use regions::Region;
use serde_json::{Map, Value as Tree};
use std::alloc::Global;
use symbolic_rows::is_linked;

// The associations that are hosted at the region's set: each name with whether a link is there.
pub(super) fn links_tree(alloc: Global, parts: &Parts<'_>, region: &Region) -> Result<Tree, Memory>
    requires { AreParts parts.now }
    ensures { IfOk result (λ tree. view tree ≡ object_of (map (link_member (basis_of parts.now) region.now.linked) ((basis_of parts.now).hosts region.now.set))) }
{
    let mut members = Map::new(alloc);
    for (index, assoc) in parts.model.assocs.as_slice().iter().enumerate() {
        let id = AssocId {
            index: index as u32,
        };
        let place = parts.cells.link_place(id);
        put_flag(alloc, &mut members, parts, region, id, assoc, place)?;
    }
    Ok(object_tree(members))
}

// Puts the flag of an association of this place, if it is hosted at the region's set.
fn put_flag(
    alloc: Global,
    members: &mut Map<String, Tree>,
    parts: &Parts<'_>,
    region: &Region,
    id: AssocId,
    assoc: &Assoc,
    place: LinkPlace,
) -> Result<(), Memory>
    ensures { IfOk result (λ _. members_view members.new.entries
        ≡ put_all (members_view members.old.entries) (map (link_member (basis_of parts.now) region.now.linked) (host_by region.now.set id assoc.now place))) }
{
    if hosting_end(region.set, assoc, place).is_some() {
        let linked = Tree::Bool(is_linked(region, id));
        serde_json::put(members, alloc, assoc_name(parts.model, id), linked)?;
    }
    Ok(())
}
