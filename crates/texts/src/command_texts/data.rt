ghost use Rattle.std.specs.Prelude.{◌≡◌, Any, Contains, IfOk, find, string_bytes};
ghost use Rattle.std.specs.Option.{option_copied};
ghost use Rattle.std.specs.Str.{bytes_eq};
ghost use Rattle.texts.specs.command_texts.Texts.{IsDiffersText, differs_text, entity_breach_text, entity_shape_text, illegal_text, no_case_text, row_or_null, table_breach_text, table_shape_text};

use edm_types::{Breach, Row, StoreModel, Table};
use emc_base::{Memory, Place, Txt};
use json_form::{place_text, quoted};
use std::alloc::Global;
use table_files::row_tree;

/// An entity document of another shape than it should be, by the pointer of the first place where it is. `Memory` comes where memory ran out.
#[tactic(auto, unfolding(crate::specs::command_texts::Texts::entity_shape_text))]
pub fn entity_shape_text(alloc: Global, pointer: &str) -> Result<Txt, Memory>
    ensures { IfOk result (λ text. text ≡ entity_shape_text pointer.now) }
{
    let pointer = quoted(alloc, pointer)?;
    let text = format!(in alloc; "data E1 {pointer}\n")?;
    Ok(Txt::from_string(text))
}

/// An entity state that isn't legal. `Memory` comes where memory ran out.
#[tactic(auto, unfolding(crate::specs::command_texts::Texts::entity_breach_text))]
pub fn entity_breach_text(alloc: Global, breach: &Breach) -> Result<Txt, Memory>
    ensures { IfOk result (λ text. text ≡ entity_breach_text breach.now) }
{
    let rule = breach.rule;
    let place = place_text(alloc, &breach.place)?;
    let text = format!(in alloc; "data E2 S{rule} {place}\n")?;
    Ok(Txt::from_string(text))
}

/// A table document of another shape than it should be, by the pointer of the first place where it is. `Memory` comes where memory ran out.
#[tactic(auto, unfolding(crate::specs::command_texts::Texts::table_shape_text))]
pub fn table_shape_text(alloc: Global, pointer: &str) -> Result<Txt, Memory>
    ensures { IfOk result (λ text. text ≡ table_shape_text pointer.now) }
{
    let pointer = quoted(alloc, pointer)?;
    let text = format!(in alloc; "data T1 {pointer}\n")?;
    Ok(Txt::from_string(text))
}

/// Tables that aren't legal. `Memory` comes where memory ran out.
#[tactic(auto, unfolding(crate::specs::command_texts::Texts::table_breach_text))]
pub fn table_breach_text(alloc: Global, breach: &Breach) -> Result<Txt, Memory>
    ensures { IfOk result (λ text. text ≡ table_breach_text breach.now) }
{
    let rule = breach.rule;
    let place = place_text(alloc, &breach.place)?;
    let text = format!(in alloc; "data T2 B{rule} {place}\n")?;
    Ok(Txt::from_string(text))
}

/// A key whose rows meet no case. `Memory` comes where memory ran out.
#[tactic(auto, unfolding(crate::specs::command_texts::Texts::no_case_text))]
pub fn no_case_text(alloc: Global, place: &Place) -> Result<Txt, Memory>
    ensures { IfOk result (λ text. text ≡ no_case_text place.now) }
{
    let place = place_text(alloc, place)?;
    let text = format!(in alloc; "data T3 nocase {place}\n")?;
    Ok(Txt::from_string(text))
}

/// The state that tables tell isn't legal. `Memory` comes where memory ran out.
#[tactic(auto, unfolding(crate::specs::command_texts::Texts::illegal_text))]
pub fn illegal_text(alloc: Global, breach: &Breach) -> Result<Txt, Memory>
    ensures { IfOk result (λ text. text ≡ illegal_text breach.now) }
{
    let rule = breach.rule;
    let place = place_text(alloc, &breach.place)?;
    let text = format!(in alloc; "data T3 illegal S{rule} {place}\n")?;
    Ok(Txt::from_string(text))
}

/// A row in which tables differ from those of the state that they tell: what is held, and what is demanded. It asks that the place names a table of
/// the store. `Memory` comes where memory ran out.
pub fn differs_text(
    alloc: Global,
    store: &StoreModel,
    place: &Place,
    held: &Option<Row>,
    demanded: &Option<Row>,
) -> Result<Txt, Memory>
    requires { Any (λ table. table.name ≡ place.now.name) store.now.tables }
    ensures { IfOk result (IsDiffersText store.now place.now held.now demanded.now) }
{
    let table = table_named(store, place.name.as_str());
    differs_line(alloc, table, place, held, demanded)
}

// The first table of a name that one has.
fn table_named<'s>(store: &'s StoreModel, name: &str) -> &'s Table
    requires { Any (λ table. table.name ≡ name.now) store.now.tables }
    ensures among { Contains store.now.tables result.now }
    ensures named { result.now.name ≡ name.now }
{
    match first_named(store.tables.as_slice(), name) {
        Some(table) => table,
        None => unreachable!(),
    }
}

// The first table of a name; `None` where none has it.
fn first_named<'s>(tables: &'s [Table], name: &str) -> Option<&'s Table>
    ensures { option_copied result ≡ find (λ table. bytes_eq table.name name.now) tables.now }
{
    tables.iter().find(|table| table.name.as_str() == name)
}

// The line of such a row, by its table.
#[tactic(auto, unfolding(crate::specs::command_texts::Texts::differs_text))]
fn differs_line(
    alloc: Global,
    table: &Table,
    place: &Place,
    held: &Option<Row>,
    demanded: &Option<Row>,
) -> Result<Txt, Memory>
    ensures { IfOk result (λ text. text ≡ differs_text table.now place.now held.now demanded.now) }
{
    let place = place_text(alloc, place)?;
    let held = row_or_null(alloc, table, held)?;
    let demanded = row_or_null(alloc, table, demanded)?;
    let text = format!(in alloc; "data T3 differs {place} {held} {demanded}\n")?;
    Ok(Txt::from_string(text))
}

// A row as compact JSON text; null where there is none.
fn row_or_null(alloc: Global, table: &Table, row: &Option<Row>) -> Result<String, Memory>
    ensures { IfOk result (λ text. string_bytes text ≡ row_or_null table.now row.now) }
{
    match row {
        Some(row) => Ok(row_tree(alloc, table, row)?.to_string(alloc)?),
        None => Ok(String::from_str(alloc, "null")?),
    }
}
