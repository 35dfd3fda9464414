ghost use Rattle.std.specs.Prelude.{◌≡◌};
ghost use Rattle.json_form.specs.Nodes.{part_of};
ghost use Rattle.data_documents.specs.change_documents.Names.{member_named, operation_in, operation_named, told_member};

use crate::entity_documents::text_at;
use json_form::Node;

/// What a change does.
#[derive(Clone, Copy)]
pub enum Operation {
    /// An entity comes into a set.
    Insert,
    /// An entity takes the place of the one with its key.
    Update,
    /// The entity with a key goes.
    Delete,
    /// A link comes into an association set.
    Link,
    /// A link goes.
    Unlink,
}

/// A member of a change.
#[derive(Clone, Copy)]
pub enum Member {
    /// `op`, which tells the operation.
    Operation,
    /// `set`, which names the set.
    Set,
    /// The entity, the key or the link, whichever the operation asks for.
    Told,
    /// One that the operation doesn't have.
    Other,
}

/// The operation that a change tells; `None` where it tells none.
pub fn operation_in(node: Node<'_>) -> Option<Operation>
    ensures { result ≡ operation_in (part_of node.entry) }
{
    operation_named(text_at(node, "op")?)
}

// The operation of a name.
fn operation_named(name: &str) -> Option<Operation>
    ensures { result ≡ operation_named name.now }
{
    match name {
        "insert" => Some(Operation::Insert),
        "update" => Some(Operation::Update),
        "delete" => Some(Operation::Delete),
        "link" => Some(Operation::Link),
        "unlink" => Some(Operation::Unlink),
        _ => None,
    }
}

/// The name of the member that tells the entity, the key or the link.
pub fn told_member(operation: Operation) -> &'static str
    ensures { result.now ≡ told_member operation }
{
    match operation {
        Operation::Insert | Operation::Update => "entity",
        Operation::Delete => "key",
        Operation::Link | Operation::Unlink => "link",
    }
}

/// Which member of a change of this operation has this name.
pub fn member_named(operation: Operation, name: &str) -> Member
    ensures { result ≡ member_named operation name.now }
{
    if name == "op" {
        return Member::Operation;
    }
    if name == "set" {
        return Member::Set;
    }
    if name == told_member(operation) {
        return Member::Told;
    }
    Member::Other
}
