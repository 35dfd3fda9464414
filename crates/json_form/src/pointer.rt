ghost use Rattle.std.specs.Prelude.{◌≡◌, ◌++◌, IfOk, OnOk, flat_map, string_bytes};
ghost use Rattle.std.specs.Cmp.{IsTotalOrder};
ghost use Rattle.std.specs.FinMap.{IsAntisymmetric};
ghost use Rattle.std.specs.Str.{chars};
ghost use Rattle.json_form.specs.Pointers.{escaped, pointer_of, step_text, steps_cmp};

use emc_base::{Memory, Txt};
use std::alloc::Global;

/// A step from a part of a JSON document to a part of that. A place is the list of the steps that lead to it from the root.
#[derive(Clone, Drop)]
pub enum Step {
    /// To the member of this name.
    Member(Txt),
    /// To the item at this place, counted from 0.
    Item(u32),
}

/// The law of the order of places: it is total, and tells different ones apart.
pub fn place_order_is_total()
    ensures places { IsTotalOrder steps_cmp }
    ensures places_apart { IsAntisymmetric steps_cmp }
{}

/// The JSON pointer (RFC 6901) of a place. `Memory` comes where there is none for it.
pub fn pointer_of(alloc: Global, steps: &[Step]) -> Result<Txt, Memory>
    ensures { IfOk result (λ text. text ≡ pointer_of steps.now) }
{
    let mut text = String::new(alloc);
    for step in steps {
        push_step(alloc, &mut text, step)?;
    }
    Ok(Txt::from_string(text))
}

fn push_step(alloc: Global, text: &mut String, step: &Step) -> Result<(), Memory>
    ensures { OnOk result (string_bytes text.new ≡ string_bytes text.old ++ step_text step.now) }
{
    match step {
        Step::Member(name) => {
            text.push('/')?;
            push_escaped(text, name.as_str())
        }
        Step::Item(place) => {
            let piece = format!(in alloc; "/{place}")?;
            text.push_str(piece.as_str())?;
            Ok(())
        }
    }
}

fn push_escaped(text: &mut String, name: &str) -> Result<(), Memory>
    ensures { OnOk result (string_bytes text.new ≡ string_bytes text.old ++ flat_map escaped (chars name.now)) }
{
    for character in name.chars() {
        push_character(text, character)?;
    }
    Ok(())
}

fn push_character(text: &mut String, character: char) -> Result<(), Memory>
    ensures { OnOk result (string_bytes text.new ≡ string_bytes text.old ++ escaped character) }
{
    match character {
        '~' => text.push_str("~0")?,
        '/' => text.push_str("~1")?,
        _ => text.push(character)?,
    }
    Ok(())
}
