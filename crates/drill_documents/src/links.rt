ghost use Rattle.std.specs.Prelude.{◌≡◌, ◌++◌, Some, IfOk, OnOk, if◌then◌else◌, map, option_map, option_to_list, None};
ghost use Rattle.serde_json.specs.View.{view};
ghost use Rattle.drill_documents.specs.Lists.{links, seeks_manager};
ghost use Rattle.drill_documents.specs.Objects.{is_employee, link};

use crate::draws::{first_draw, next_draw};
use crate::objects::{is_employee, link};
use emc_base::Memory;
use serde_json::Value as Tree;
use std::alloc::Global;

// The links, with the Employee of the largest Id so far carried along.
pub fn links(alloc: Global, seed: u64, count: u32) -> Result<Vec<Tree>, Memory>
    ensures { IfOk result (λ trees. map view trees.items ≡ links seed count) }
{
    let mut trees = Vec::new(alloc);
    let mut draw = first_draw(seed);
    let mut last = None;
    for before in 0..count {
        draw = next_draw(draw);
        let id = before as u64 + 1;
        put_link(alloc, &mut trees, last, id, draw)?;
        last = last_with(last, id, draw);
    }
    Ok(trees)
}

// Adds the link of a person to the manager, where there is one and the person looks for one.
fn put_link(
    alloc: Global,
    trees: &mut Vec<Tree>,
    manager: Option<u64>,
    id: u64,
    draw: u64,
) -> Result<(), Memory>
    ensures { OnOk result (map view trees.new.items ≡ map view trees.old.items ++ option_to_list (if seeks_manager draw then option_map (link id) manager else None)) }
{
    let Some(manager) = manager else {
        return Ok(());
    };
    if is_employee(draw) && draw % 3 != 0 {
        trees.push(link(alloc, id, manager)?)?;
    }
    Ok(())
}

// The last Employee, once a further person has come.
fn last_with(last: Option<u64>, id: u64, draw: u64) -> Option<u64>
    ensures { result ≡ (if is_employee draw then Some id else last) }
{
    if is_employee(draw) { Some(id) } else { last }
}
