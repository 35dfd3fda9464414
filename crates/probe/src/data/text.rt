ghost use Rattle.std.specs.Prelude.{◌≡◌, IfOk, Some, string_bytes};
ghost use Rattle.probe.specs.Texts.{breach_text, form_letter, rule_letter, rule_text, shape_text, told_text};

use crate::data::refusal::Refusal;
use data_documents::ShapeFault;
use edm_types::{Breach, RuleFault, VocabFault};
use emc_base::Memory;
use json_form::{place_text, quoted};
use std::alloc::Global;

/// What a document holds.
#[derive(Clone, Copy)]
pub enum DataKind {
    /// The entities and links of a model.
    Entities,
    /// The rows of a store.
    Tables,
}

impl DataKind {
    // The letter of a fault in the document.
    fn form_letter(self) -> &'static str
        ensures { result.now ≡ form_letter self }
    {
        match self {
            DataKind::Entities => "E",
            DataKind::Tables => "T",
        }
    }

    // The letter of a rule on what it holds.
    fn rule_letter(self) -> &'static str
        ensures { result.now ≡ rule_letter self }
    {
        match self {
            DataKind::Entities => "S",
            DataKind::Tables => "B",
        }
    }
}

/// Puts the line of what is judged of a document. `None` comes where memory ran out, also before.
pub fn put_judged(
    alloc: Global,
    text: &mut String,
    kind: DataKind,
    judged: Result<Option<Breach>, Refusal>,
) -> Option<()> {
    let told = text_of(alloc, kind, &judged);
    drop(judged);
    text.push_str(told.ok()?.as_str()).ok()
}

/// The line that is printed of a document, with its line feed. `Memory` comes where memory ran out, also before.
pub fn text_of(
    alloc: Global,
    kind: DataKind,
    judged: &Result<Option<Breach>, Refusal>,
) -> Result<String, Memory>
    ensures { IfOk result (λ text. Some (string_bytes text) ≡ told_text kind judged.now) }
{
    match judged {
        Ok(None) => Ok(String::from_str(alloc, "legal\n")?),
        Ok(Some(breach)) => breach_text(alloc, kind, breach),
        Err(Refusal::Shape(ShapeFault::Shape(pointer))) => {
            shape_text(alloc, kind, pointer.as_str())
        }
        Err(Refusal::Vocabulary(VocabFault::Rule(fault))) => rule_text(alloc, fault),
        Err(_) => Err(Memory),
    }
}

#[tactic(auto, unfolding(crate::specs::Texts::breach_text))]
fn breach_text(alloc: Global, kind: DataKind, breach: &Breach) -> Result<String, Memory>
    ensures { IfOk result (λ text. string_bytes text ≡ breach_text kind breach.now) }
{
    let form = kind.form_letter();
    let letter = kind.rule_letter();
    let rule = breach.rule;
    let place = place_text(alloc, &breach.place)?;
    Ok(format!(in alloc; "data {form}2 {letter}{rule} {place}\n")?)
}

#[tactic(auto, unfolding(crate::specs::Texts::shape_text))]
fn shape_text(alloc: Global, kind: DataKind, pointer: &str) -> Result<String, Memory>
    ensures { IfOk result (λ text. string_bytes text ≡ shape_text kind pointer.now) }
{
    let form = kind.form_letter();
    let place = quoted(alloc, pointer)?;
    Ok(format!(in alloc; "data {form}1 {place}\n")?)
}

#[tactic(auto, unfolding(crate::specs::Texts::rule_text))]
fn rule_text(alloc: Global, fault: &RuleFault) -> Result<String, Memory>
    ensures { IfOk result (λ text. string_bytes text ≡ rule_text fault.now.rule fault.now.place) }
{
    let rule = fault.rule;
    let place = quoted(alloc, fault.place.as_str())?;
    Ok(format!(in alloc; "rule V{rule} {place}\n")?)
}
