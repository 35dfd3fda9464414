ghost use Rattle.std.specs.Prelude.{◌≡◌, IfOk};
ghost use Rattle.texts.specs.change_texts.Texts.{change_shape_text, free_reference_text, new_breach_text, reason_word, refused_text};

use edm_types::Breach;
use emc_base::{Memory, Place, Txt};
use entity_changes::Reason;
use json_form::{place_text, quoted};
use std::alloc::Global;

/// A change document of another shape than it should be, by the pointer of the first place where it is. `Memory` comes where memory ran out.
#[tactic(auto, unfolding(crate::specs::change_texts::Texts::change_shape_text))]
pub fn change_shape_text(alloc: Global, pointer: &str) -> Result<Txt, Memory>
    ensures { IfOk result (λ text. text ≡ change_shape_text pointer.now) }
{
    let pointer = quoted(alloc, pointer)?;
    let text = format!(in alloc; "data C1 {pointer}\n")?;
    Ok(Txt::from_string(text))
}

/// The change at this place, counted from 0, is refused. `Memory` comes where memory ran out.
#[tactic(auto, unfolding(crate::specs::change_texts::Texts::refused_text))]
pub fn refused_text(alloc: Global, index: u64, reason: Reason) -> Result<Txt, Memory>
    ensures { IfOk result (λ text. text ≡ refused_text index reason) }
{
    let word = reason_word(reason);
    let text = format!(in alloc; "data C2 {index} {word}\n")?;
    Ok(Txt::from_string(text))
}

// The word for why a change is refused.
fn reason_word(reason: Reason) -> &'static str
    ensures { result.now ≡ reason_word reason }
{
    match reason {
        Reason::Exists => "exists",
        Reason::Absent => "absent",
        Reason::TypeChanged => "typechanged",
        Reason::LinkExists => "linkexists",
        Reason::LinkAbsent => "linkabsent",
    }
}

/// The state after the changes isn't legal. `Memory` comes where memory ran out.
#[tactic(auto, unfolding(crate::specs::change_texts::Texts::new_breach_text))]
pub fn new_breach_text(alloc: Global, breach: &Breach) -> Result<Txt, Memory>
    ensures { IfOk result (λ text. text ≡ new_breach_text breach.now) }
{
    let rule = breach.rule;
    let place = place_text(alloc, &breach.place)?;
    let text = format!(in alloc; "data C3 S{rule} {place}\n")?;
    Ok(Txt::from_string(text))
}

/// A row that would be left without the one to which it refers by columns that no mapping writes. `Memory` comes where memory ran out.
#[tactic(auto, unfolding(crate::specs::change_texts::Texts::free_reference_text))]
pub fn free_reference_text(alloc: Global, place: &Place) -> Result<Txt, Memory>
    ensures { IfOk result (λ text. text ≡ free_reference_text place.now) }
{
    let place = place_text(alloc, place)?;
    let text = format!(in alloc; "data C5 {place}\n")?;
    Ok(Txt::from_string(text))
}
