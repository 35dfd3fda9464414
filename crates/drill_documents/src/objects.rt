ghost use Rattle.std.specs.Prelude.{◌≡◌, IfOk};
ghost use Rattle.serde_json.specs.View.{view};
ghost use Rattle.drill_documents.specs.Objects.{change_of_person, document, employee, first_document_gone, hired, is_employee, link, person, person_named, plain_person, renamed};

use emc_base::Memory;
use serde_json::{Value as Tree, json};
use std::alloc::Global;

// Whether the person of a draw is an Employee.
pub fn is_employee(draw: u64) -> bool
    ensures { result ≡ is_employee draw }
{
    draw % 2 == 1
}

// A person, named by the draw.
pub fn person(alloc: Global, id: u64, draw: u64) -> Result<Tree, Memory>
    ensures { IfOk result (λ tree. view tree ≡ person id draw) }
{
    let name = format!(in alloc; "n{draw}")?;
    person_named(alloc, id, draw, name.as_str())
}

// The update that gives a person another name.
pub fn renamed(alloc: Global, id: u64, draw: u64) -> Result<Tree, Memory>
    ensures { IfOk result (λ tree. view tree ≡ renamed id draw) }
{
    let name = format!(in alloc; "m{id}")?;
    let entity = person_named(alloc, id, draw, name.as_str())?;
    change_of_person(alloc, "update", entity)
}

// The insert of an Employee without a level.
pub fn hired(alloc: Global, id: u64) -> Result<Tree, Memory>
    ensures { IfOk result (λ tree. view tree ≡ hired id) }
{
    let entity = employee(alloc, id, "new", Tree::Null)?;
    change_of_person(alloc, "insert", entity)
}

// The delete of document 1.
pub fn first_document_gone(alloc: Global) -> Result<Tree, Memory>
    ensures { IfOk result (λ tree. view tree ≡ first_document_gone) }
{
    Ok(json!(in alloc; {"key": [1u64], "op": "delete", "set": "Documents"})?)
}

// A document, titled by the Id.
pub fn document(alloc: Global, id: u64, draw: u64) -> Result<Tree, Memory>
    ensures { IfOk result (λ tree. view tree ≡ document id draw) }
{
    let title = format!(in alloc; "t{id}")?;
    if draw % 5 == 0 {
        let report =
            json!(in alloc; {"$type": "N.Report", "Id": id, "Pages": draw, "Title": &title})?;
        return Ok(report);
    }
    Ok(json!(in alloc; {"$type": "N.Document", "Id": id, "Title": &title})?)
}

// The link of an Employee to a manager.
pub fn link(alloc: Global, id: u64, manager: u64) -> Result<Tree, Memory>
    ensures { IfOk result (λ tree. view tree ≡ link id manager) }
{
    Ok(json!(in alloc; {"Manager": [manager], "Staff": [id]})?)
}

// A person under a name.
fn person_named(alloc: Global, id: u64, draw: u64, name: &str) -> Result<Tree, Memory>
    ensures { IfOk result (λ tree. view tree ≡ person_named id draw name.now) }
{
    if is_employee(draw) {
        employee(alloc, id, name, Tree::from(draw))
    } else {
        plain_person(alloc, id, name)
    }
}

// An Employee of a level.
fn employee(alloc: Global, id: u64, name: &str, level: Tree) -> Result<Tree, Memory>
    ensures { IfOk result (λ tree. view tree ≡ employee id name.now (view level)) }
{
    Ok(json!(in alloc; {"$type": "N.Employee", "Id": id, "Level": level, "Name": name})?)
}

// A Person who is no Employee.
fn plain_person(alloc: Global, id: u64, name: &str) -> Result<Tree, Memory>
    ensures { IfOk result (λ tree. view tree ≡ plain_person id name.now) }
{
    Ok(json!(in alloc; {"$type": "N.Person", "Id": id, "Name": name})?)
}

// A change of the set People that gives an entity.
fn change_of_person(alloc: Global, op: &str, entity: Tree) -> Result<Tree, Memory>
    ensures { IfOk result (λ tree. view tree ≡ change_of_person op.now (view entity)) }
{
    Ok(json!(in alloc; {"entity": entity, "op": op, "set": "People"})?)
}
