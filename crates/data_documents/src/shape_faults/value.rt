ghost use Rattle.std.specs.Prelude.{◌≡◌, IfOk, option_and_then, option_map};
ghost use Rattle.serde_json.specs.Find.{as_str};
ghost use Rattle.emc_base.specs.declared.value.Value.TheVariants.{Bytes, Text};
ghost use Rattle.json_form.specs.Nodes.{part_of};
ghost use Rattle.data_documents.specs.shape_faults.Values.{bytes_in, plain_value, value_in};

use emc_base::{Bin, Kind, Memory, Txt, Value};
use hex::FromHexError;
use json_form::Node;
use std::alloc::Global;

/// The value of a node for a kind; `None` exactly where the node is of another form. Null is null for any kind. Whether the value lies in
/// the kind's domain isn't looked at. `Memory` comes where memory ran out.
pub fn value_of_node(alloc: Global, kind: &Kind, node: Node<'_>) -> Result<Option<Value>, Memory>
    ensures { IfOk result (λ value. value ≡ value_in kind.now (part_of node.entry)) }
{
    if node.is_null() {
        return Ok(Some(Value::Null));
    }
    plain_value(alloc, kind, node)
}

// The same of a node that isn't null.
fn plain_value(alloc: Global, kind: &Kind, node: Node<'_>) -> Result<Option<Value>, Memory>
    ensures { IfOk result (λ value. value ≡ plain_value kind.now (part_of node.entry)) }
{
    match kind {
        Kind::Byte | Kind::Int16 | Kind::Int32 | Kind::Int64 | Kind::Enum(_) => {
            Ok(node.whole().map(Value::Whole))
        }
        Kind::Boolean => Ok(node.flag().map(Value::Flag)),
        Kind::Text(_) => text_value(alloc, node),
        Kind::Binary(_) => bytes_value(alloc, node),
    }
}

// The text of a node as a value.
fn text_value(alloc: Global, node: Node<'_>) -> Result<Option<Value>, Memory>
    ensures { IfOk result (λ value. value ≡ option_map Text (as_str (part_of node.entry))) }
{
    let Some(text) = node.text() else {
        return Ok(None);
    };
    let text = Txt::of(alloc, text)?;
    Ok(Some(Value::Text(text)))
}

// The bytes that the text of a node spells, as a value.
fn bytes_value(alloc: Global, node: Node<'_>) -> Result<Option<Value>, Memory>
    ensures { IfOk result (λ value. value ≡ option_map Bytes (option_and_then bytes_in (as_str (part_of node.entry)))) }
{
    let Some(text) = node.text() else {
        return Ok(None);
    };
    let bytes = bytes_in(alloc, text)?;
    Ok(bytes.map(Value::Bytes))
}

// The bytes that a text spells.
fn bytes_in(alloc: Global, text: &str) -> Result<Option<Bin>, Memory>
    ensures { IfOk result (λ bytes. bytes ≡ bytes_in text.now) }
{
    match hex::decode(alloc, text) {
        Ok(bytes) => Ok(Some(Bin::from_vec(bytes))),
        Err(FromHexError::OutOfMemory) => Err(Memory),
        Err(_) => Ok(None),
    }
}
