ghost use Rattle.std.specs.Prelude.{◌≡◌, IfOk, option_map};
ghost use Rattle.msl_rules.specs.msl_lists.Picks.{below_reference, pick_of, raw_picks, rest_before, skip_last_spaces, skip_spaces};

use crate::msl_lists::raw::RawPick;
use emc_base::{Memory, Seq, Txt};
use groupings::rest_after;
use std::alloc::Global;

/// The items of a TypeName.
pub fn read_picks(alloc: Global, text: &str) -> Result<Seq<RawPick>, Memory>
    ensures { IfOk result (λ picks. picks ≡ raw_picks text.now) }
{
    let mut picks = Seq::empty(alloc);
    for item in text.split(';') {
        picks.push(read_pick(alloc, item)?)?;
    }
    Ok(picks)
}

// An item, whose spaces at both ends don't count.
fn read_pick(alloc: Global, item: &str) -> Result<RawPick, Memory>
    ensures { IfOk result (λ pick. pick ≡ pick_of item.now) }
{
    let item = without_spaces_behind(without_spaces_before(item));
    let (text, below) = match below_reference(item) {
        Some(reference) => (reference, true),
        None => (item, false),
    };
    let reference = Txt::of(alloc, text)?;
    Ok(RawPick { reference, below })
}

fn without_spaces_before(mut text: &str) -> &str
    ensures { result.now ≡ skip_spaces text.now }
{
    while let Some(rest) = text.strip_prefix(' ') {
        text = rest;
    }
    text
}

fn without_spaces_behind(mut text: &str) -> &str
    ensures { result.now ≡ skip_last_spaces text.now }
{
    while let Some(rest) = text.strip_suffix(' ') {
        text = rest;
    }
    text
}

// The reference of `IsTypeOf(reference)`.
fn below_reference(item: &str) -> Option<&str>
    ensures { option_map (λ reference. reference.now) result ≡ below_reference item.now }
{
    rest_before(")", rest_after("IsTypeOf(", item)?)
}

// What stands before a text at the end of another.
fn rest_before<'a>(end: &str, text: &'a str) -> Option<&'a str>
    ensures { option_map (λ rest. rest.now) result ≡ rest_before end.now text.now }
{
    text.strip_suffix(end)
}
