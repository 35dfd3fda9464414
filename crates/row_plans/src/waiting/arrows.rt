ghost use Rattle.std.specs.Prelude.{◌≡◌, ◌++◌, All, IfOk};
ghost use Rattle.std.specs.List.{flat_map};
ghost use Rattle.row_plans.specs.Roles.{Fits};
ghost use Rattle.row_plans.specs.Waits.{AddsArrows, arrows_between, arrows_from, arrows_in, arrows_in_groups, is_target};

use crate::waiting::parts::{Part, Role, parts_of};
use edm_types::ForeignKey;
use emc_base::Memory;
use keyed_rows::{KeyGroup, key_groups};
use row_orders::Alteration;
use std::alloc::Global;

// From the place of an alteration to that of one that it waits for.
#[derive(Clone, Copy)]
pub(super) struct Arrow {
    pub from: usize,
    pub to: usize,
}

// Adds the arrows by a foreign key.
pub(super) fn add_key(
    alloc: Global,
    arrows: &mut Vec<Arrow>,
    key: &ForeignKey,
    alterations: &[Alteration<'_>],
) -> Result<(), Memory>
    requires { All (Fits key.now) alterations.now }
    ensures { IfOk result (λ _. AddsArrows key.now alterations.now arrows.old.items arrows.new.items) }
{
    let parts = parts_of(alloc, key, alterations)?;
    let groups = key_groups(alloc, parts)?;
    add_groups(arrows, &groups)
}

// Adds those in groups of parts that have the same cells.
fn add_groups(arrows: &mut Vec<Arrow>, groups: &[KeyGroup<'_, Part>]) -> Result<(), Memory>
    ensures { IfOk result (λ _. arrows.new.items ≡ arrows.old.items ++ arrows_in_groups groups.now) }
{
    for group in groups {
        add_group(arrows, &group.items)?;
    }
    Ok(())
}

// Adds those in a group.
fn add_group(arrows: &mut Vec<Arrow>, parts: &[Part]) -> Result<(), Memory>
    ensures { IfOk result (λ _. arrows.new.items ≡ arrows.old.items ++ arrows_in parts.now) }
{
    for part in parts {
        if is_target(part.role) {
            add_target(arrows, *part, parts)?;
        }
    }
    Ok(())
}

// Whether it is the role of a row that is referred to.
fn is_target(role: Role) -> bool
    ensures { result ≡ is_target role }
{
    matches!(role, Role::Comes | Role::Goes)
}

// Adds those between a row that is referred to and the others of its group.
fn add_target(arrows: &mut Vec<Arrow>, target: Part, parts: &[Part]) -> Result<(), Memory>
    ensures { IfOk result (λ _. arrows.new.items ≡ arrows.old.items ++ flat_map (arrows_between target) parts.now) }
{
    for part in parts {
        add_between(arrows, target, *part)?;
    }
    Ok(())
}

// Adds the arrow between a row that is referred to and another, if there is one.
fn add_between(arrows: &mut Vec<Arrow>, target: Part, other: Part) -> Result<(), Memory>
    ensures { IfOk result (λ _. arrows.new.items ≡ arrows.old.items ++ arrows_between target other) }
{
    if target.place == other.place {
        return Ok(());
    }
    match (target.role, other.role) {
        (Role::Comes, Role::Refers) => arrows.push(Arrow {
            from: other.place,
            to: target.place,
        })?,
        (Role::Goes, Role::Referred) => arrows.push(Arrow {
            from: target.place,
            to: other.place,
        })?,
        _ => (),
    }
    Ok(())
}
