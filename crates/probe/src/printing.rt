use edm_types::Entity;
use emc_base::{Key, Memory, Txt, Value};
use json_form::{key_tree, value_tree};
use std::alloc::Global;

/// Puts a word and a number behind a text.
pub fn put(alloc: Global, text: &mut String, word: &str, number: u64) -> Option<()> {
    let shown = format!(in alloc; "{word}{number}").ok()?;
    text.push_str(shown.as_str()).ok()
}

/// Puts values as a JSON array.
pub fn put_values(alloc: Global, text: &mut String, values: &Key) -> Option<()> {
    let tree = key_tree(alloc, values).ok()?;
    let shown = tree.to_string(alloc).ok()?;
    text.push_str(shown.as_str()).ok()
}

/// Puts the type and the values of an entity, and ends the line.
pub fn put_entity_line(alloc: Global, text: &mut String, entity: &Entity) -> Option<()> {
    put(alloc, text, "", u64::from(entity.ty.index))?;
    put_values(alloc, text, &entity.values)?;
    text.push_str("\n").ok()
}

/// Puts a value as JSON.
pub fn put_value(alloc: Global, text: &mut String, value: &Value) -> Option<()> {
    let tree = value_tree(alloc, value).ok()?;
    let shown = tree.to_string(alloc).ok()?;
    text.push_str(shown.as_str()).ok()
}

/// Puts a text that is told; `None` where memory ran out, also before.
pub fn put_text(text: &mut String, told: Result<Txt, Memory>) -> Option<()> {
    let told = told.ok()?;
    let put = text.push_str(told.as_str()).ok();
    drop(told);
    put
}

/// Puts bytes, which are those of a text.
pub fn put_bytes(text: &mut String, bytes: &[u8]) -> Option<()> {
    text.push_str(std::str::from_utf8(bytes).ok()?).ok()
}

/// Puts yes or no.
pub fn put_flag(text: &mut String, is_so: bool) -> Option<()> {
    text.push_str(if is_so { " yes" } else { " no" }).ok()
}
