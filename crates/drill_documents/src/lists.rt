ghost use Rattle.std.specs.Prelude.{◌≡◌, IfOk, map};
ghost use Rattle.serde_json.specs.View.{view};
ghost use Rattle.drill_documents.specs.Lists.{documents, people, renamings};

use crate::draws::{first_draw, next_draw};
use crate::objects::{document, person, renamed};
use emc_base::Memory;
use serde_json::Value as Tree;
use std::alloc::Global;

// The people.
pub fn people(alloc: Global, seed: u64, count: u32) -> Result<Vec<Tree>, Memory>
    ensures { IfOk result (λ trees. map view trees.items ≡ people seed count) }
{
    let mut trees = Vec::new(alloc);
    let mut draw = first_draw(seed);
    for before in 0..count {
        draw = next_draw(draw);
        trees.push(person(alloc, before as u64 + 1, draw)?)?;
    }
    Ok(trees)
}

// The documents.
pub fn documents(alloc: Global, seed: u64, count: u32) -> Result<Vec<Tree>, Memory>
    ensures { IfOk result (λ trees. map view trees.items ≡ documents seed count) }
{
    let mut trees = Vec::new(alloc);
    let mut draw = first_draw(seed);
    for before in 0..count {
        draw = next_draw(draw);
        trees.push(document(alloc, before as u64 + 1, draw)?)?;
    }
    Ok(trees)
}

// The updates of those whose Id is even.
pub fn renamings(alloc: Global, seed: u64, count: u32) -> Result<Vec<Tree>, Memory>
    ensures { IfOk result (λ trees. map view trees.items ≡ renamings seed count) }
{
    let mut trees = Vec::new(alloc);
    let mut draw = first_draw(seed);
    for before in 0..count {
        draw = next_draw(draw);
        let id = before as u64 + 1;
        if id % 2 != 0 {
            continue;
        }
        trees.push(renamed(alloc, id, draw)?)?;
    }
    Ok(trees)
}
