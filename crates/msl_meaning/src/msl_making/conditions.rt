ghost use Rattle.std.specs.Prelude.{◌≡◌, IfOk};
ghost use Rattle.std.specs.Option.{option_copied};
ghost use Rattle.msl_rules.specs.Found.{cond_in, conds_in, kind_on, test_of};
ghost use Rattle.msl_meaning.specs.msl_found.NamedAt.{named_at};

use crate::msl_found::InTable;
use edm_types::{Cond, CondOn, Test};
use emc_base::{Kind, Memory, Seq, put_found};
use msl_rules::{RawCond, spelled};
use std::alloc::Global;

/// The conditions of a list that are well-formed, in their order.
pub(super) fn conds_in(
    alloc: Global,
    place: &InTable<'_>,
    conds: &Seq<RawCond>,
) -> Result<Seq<Cond>, Memory>
    ensures { IfOk result (λ found. found ≡ conds_in place.now.names.now.model.now place.now.names.now.store.now (named_at place.now.names.now.model.now place.now.ty) place.now.table conds.now) }
{
    let mut found = Seq::empty(alloc);
    for cond in conds.as_slice() {
        put_found(&mut found, cond_in(alloc, place, cond)?)?;
    }
    Ok(found)
}

// A condition, where it is well-formed.
fn cond_in(alloc: Global, place: &InTable<'_>, cond: &RawCond) -> Result<Option<Cond>, Memory>
    ensures { IfOk result (λ found. found ≡ cond_in place.now.names.now.model.now place.now.names.now.store.now (named_at place.now.names.now.model.now place.now.ty) place.now.table cond.now) }
{
    let Some(on) = place.condition_on(cond) else {
        return Ok(None);
    };
    let test = test_of(alloc, kind_on(place, on), cond)?;
    Ok(test.map(|test| Cond { on, test }))
}

// The kind of what a condition is on.
fn kind_on<'a>(place: &InTable<'a>, on: CondOn) -> Option<&'a Kind>
    ensures { option_copied result ≡ kind_on place.now.names.now.model.now place.now.names.now.store.now (named_at place.now.names.now.model.now place.now.ty) place.now.table on }
{
    match on {
        CondOn::Prop(prop) => {
            let declared = place.names.model.props.get(prop.index as usize)?;
            Some(&declared.kind)
        }
        CondOn::Col(col) => {
            let table = place.names.store.tables.get(place.table)?;
            let column = table.cols.get(col.index as usize)?;
            Some(&column.kind)
        }
    }
}

// What a condition compares with, where it asks just one of a value and of null.
fn test_of(alloc: Global, kind: Option<&Kind>, cond: &RawCond) -> Result<Option<Test>, Memory>
    ensures { IfOk result (λ test. test ≡ test_of (option_copied kind.entry) cond.now.value cond.now.is_null) }
{
    match (&cond.value, cond.is_null) {
        (Some(text), None) => {
            let Some(kind) = kind else {
                return Ok(None);
            };
            let value = spelled(alloc, kind, text)?;
            Ok(value.map(Test::Equals))
        }
        (None, Some(flag)) => Ok(Some(Test::IsNull(flag))),
        _ => Ok(None),
    }
}
