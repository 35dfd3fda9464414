ghost use Rattle.std.specs.Prelude.{◌≡◌, ◌++◌, IfOk, IfSome, string_bytes};
ghost use Rattle.serde_json.specs.Data.{Data};
ghost use Rattle.json_form.specs.Documents.{printed};
ghost use Rattle.entity_state.specs.Tells.{IsTreeInKeyOrder};
ghost use Rattle.round_trip.specs.Words.{IsState};
ghost use Rattle.witness_state.specs.Failures.{IsFailureOf};
ghost use Rattle.texts.specs.command_texts.Texts.{IsFailText, IsOtherLine, IsStateLine, accepted_text, failing_text, file_text, file_word, kind_word, limit_text, limit_word, rule_text, usage_text};

use edm_types::{EntityModel, LimitFault, LimitKind, RuleFault, Schema, VocabFile};
use emc_base::{Bin, Memory, Txt};
use entity_state::EntityState;
use json_form::{place_text, quoted};
use round_trip::FailKind;
use std::alloc::Global;
use witness_state::Failure;

/// The line that lists the commands. `Memory` comes where memory ran out.
#[tactic(auto, unfolding(crate::specs::command_texts::Texts::usage_text))]
pub fn usage_text(alloc: Global) -> Result<Txt, Memory>
    ensures { IfOk result (λ text. text ≡ usage_text) }
{
    Txt::of(
        alloc,
        "usage: check M S P | views M S P | store M S P ENTITIES | load M S P TABLES | save M S P TABLES CHANGES OUT | drill SEED COUNT\n",
    )
}

/// The verdict on an accepted mapping. `Memory` comes where memory ran out.
#[tactic(auto, unfolding(crate::specs::command_texts::Texts::accepted_text))]
pub fn accepted_text(alloc: Global) -> Result<Txt, Memory>
    ensures { IfOk result (λ text. text ≡ accepted_text) }
{
    Txt::of(alloc, "accepted\n")
}

/// What is wrong with a named file: `missing`, `toolarge` or `failed`. `Memory` comes where memory ran out.
#[tactic(auto, unfolding(crate::specs::command_texts::Texts::file_text))]
pub fn file_text(alloc: Global, word: &str, name: &str) -> Result<Txt, Memory>
    ensures { IfOk result (λ text. text ≡ file_text word.now name.now) }
{
    let name = quoted(alloc, name)?;
    let text = format!(in alloc; "file {word} {name}\n")?;
    Ok(Txt::from_string(text))
}

fn file_word(file: VocabFile) -> &'static str
    ensures { result.now ≡ file_word file }
{
    match file {
        VocabFile::Csdl => "csdl",
        VocabFile::Ssdl => "ssdl",
        VocabFile::Msl => "msl",
    }
}

/// A broken rule. `Memory` comes where memory ran out.
#[tactic(auto, unfolding(crate::specs::command_texts::Texts::rule_text))]
pub fn rule_text(alloc: Global, fault: &RuleFault) -> Result<Txt, Memory>
    ensures { IfOk result (λ text. text ≡ rule_text fault.now) }
{
    let rule = fault.rule;
    let file = file_word(fault.file);
    let place = quoted(alloc, fault.place.as_str())?;
    let text = format!(in alloc; "rule V{rule} {file} {place}\n")?;
    Ok(Txt::from_string(text))
}

fn limit_word(what: LimitKind) -> &'static str
    ensures { result.now ≡ limit_word what }
{
    match what {
        LimitKind::Sets => "sets",
        LimitKind::Associations => "associations",
        LimitKind::Types => "types",
        LimitKind::Properties => "properties",
        LimitKind::Tables => "tables",
        LimitKind::Columns => "columns",
        LimitKind::Foreign => "foreign",
        LimitKind::Fragments => "fragments",
        LimitKind::Constants => "constants",
        LimitKind::Regions => "regions",
    }
}

/// A passed limit. `Memory` comes where memory ran out.
#[tactic(auto, unfolding(crate::specs::command_texts::Texts::limit_text))]
pub fn limit_text(alloc: Global, fault: &LimitFault) -> Result<Txt, Memory>
    ensures { IfOk result (λ text. text ≡ limit_text fault.now) }
{
    let what = limit_word(fault.what);
    let name = quoted(alloc, fault.name.as_str())?;
    let counted = fault.counted;
    let allowed = fault.allowed;
    let text = format!(in alloc; "limit {what} {name} {counted} {allowed}\n")?;
    Ok(Txt::from_string(text))
}

fn kind_word(kind: FailKind) -> &'static str
    ensures { result.now ≡ kind_word kind }
{
    match kind {
        FailKind::Clash => "clash",
        FailKind::Null => "null",
        FailKind::Disagrees => "disagrees",
        FailKind::Dangling => "dangling",
        FailKind::Same => "same",
    }
}

// The printed document of a state.
fn state_bytes(alloc: Global, model: &EntityModel, state: &EntityState) -> Result<Bin, Memory>
    requires { IsState model.now state.now }
    ensures { IfOk result (λ text. (tree : Data) × IsTreeInKeyOrder model.now state.now tree × (text ≡ printed tree)) }
{
    let document = state.to_doc(alloc, model)?;
    document.bytes(alloc)
}

// A word, and the printed document of a state.
fn state_line(
    alloc: Global,
    word: &str,
    model: &EntityModel,
    state: &EntityState,
) -> Result<Bin, Memory>
    requires { IsState model.now state.now }
    ensures { IfOk result (IsStateLine word.now model.now state.now) }
{
    let document = state_bytes(alloc, model, state)?;
    let mut text = format!(in alloc; "{word} ")?.into_bytes();
    text.extend_from_slice(document.as_slice())?;
    Ok(Bin::from_vec(text))
}

// The line of the other state; nothing where there is none.
fn other_line(
    alloc: Global,
    model: &EntityModel,
    other: &Option<EntityState>,
) -> Result<Bin, Memory>
    requires { IfSome other.now (λ state. IsState model.now state) }
    ensures { IfOk result (IsOtherLine model.now other.now) }
{
    match other {
        Some(state) => state_line(alloc, "other", model, state),
        None => Ok(Bin::from_vec(Vec::new(alloc))),
    }
}

// The kind by which a state fails, and the place.
#[tactic(auto, unfolding(crate::specs::command_texts::Texts::failing_text))]
fn failing_text(alloc: Global, failure: &Failure) -> Result<String, Memory>
    ensures { IfOk result (λ text. string_bytes text ≡ failing_text failure.now) }
{
    let kind = kind_word(failure.kind);
    let place = place_text(alloc, &failure.place)?;
    Ok(format!(in alloc; "fails {kind}\nat {place}\n")?)
}

/// A failing state, by the names of the model. `Memory` comes where memory ran out.
pub fn fail_text(alloc: Global, schema: &Schema, failure: &Failure) -> Result<Bin, Memory>
    requires { IsFailureOf schema.now failure.now }
    ensures { IfOk result (IsFailText schema.now.model failure.now) }
{
    let model = &schema.model;
    let state = state_line(alloc, "state", model, &failure.state)?;
    let other = other_line(alloc, model, &failure.other)?;
    let text = failing_text(alloc, failure)?;
    let whole = with_lines(text, &state, &other)?;
    Ok(whole)
}

// A text with two lines behind it.
fn with_lines(text: String, state: &Bin, other: &Bin) -> Result<Bin, Memory>
    ensures { IfOk result (λ whole. whole ≡ (string_bytes text ++ state.now) ++ other.now) }
{
    let mut bytes = text.into_bytes();
    bytes.extend_from_slice(state.as_slice())?;
    bytes.extend_from_slice(other.as_slice())?;
    Ok(Bin::from_vec(bytes))
}
