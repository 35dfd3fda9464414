ghost use Rattle.std.specs.Prelude.{◌≡◌, IfOk, find};
ghost use Rattle.std.specs.Option.{option_copied};
ghost use Rattle.std.specs.Str.{bytes_eq};
ghost use Rattle.msl_rules.specs.Found.{end_pairs};
ghost use Rattle.msl_rules.specs.MappingMeaning.{link_with};

use crate::msl_found::InTable;
use crate::msl_making::conditions::conds_in;
use edm_types::{Assoc, End, LinkFragment, Pair};
use emc_base::{AssocId, Memory, Seq, TableId, Txt, narrow};
use msl_rules::{RawEndMapping, RawLinkMapping};
use schema_names::SchemaNames;
use std::alloc::Global;

/// The mapping of an association set, at this pointer, with the set at a place, its association, and the table at a place. `Memory` comes where
/// memory ran out.
pub fn make_link(
    alloc: Global,
    names: &SchemaNames<'_>,
    place: Txt,
    link: &RawLinkMapping,
    set: usize,
    assoc: &Assoc,
    table: usize,
) -> Result<LinkFragment, Memory>
    ensures { IfOk result (λ made. made ≡ link_with names.now.model.now names.now.store.now place link.now set assoc.now table) }
{
    // No property is named in the conditions of a link.
    let ty = None;
    Ok(LinkFragment {
        place,
        assoc: AssocId {
            index: narrow(set)?,
        },
        table: TableId {
            index: narrow(table)?,
        },
        first: end_pairs(alloc, names, table, &assoc.first, &link.ends)?,
        second: end_pairs(alloc, names, table, &assoc.second, &link.ends)?,
        conds: conds_in(alloc, &InTable { names, ty, table }, &link.conds)?,
    })
}

// The pairs of an end of an association, in the table at a place.
fn end_pairs(
    alloc: Global,
    names: &SchemaNames<'_>,
    table: usize,
    end: &End,
    written: &Seq<RawEndMapping>,
) -> Result<Seq<Pair>, Memory>
    ensures { IfOk result (λ pairs. pairs ≡ end_pairs names.now.model.now names.now.store.now table end.now written.now) }
{
    let Some(mapping) = written_end(end.role.as_str(), written.as_slice()) else {
        return Ok(Seq::empty(alloc));
    };
    let ty = Some(end.ty.index as usize);
    InTable { names, ty, table }.pairs(alloc, &mapping.pairs)
}

// The first of the written ends that has a role.
fn written_end<'a>(role: &str, written: &'a [RawEndMapping]) -> Option<&'a RawEndMapping>
    ensures { option_copied result ≡ find (λ mapping. bytes_eq role.now mapping.role) written.now }
{
    written.iter().find(|mapping| role == mapping.role.as_str())
}
