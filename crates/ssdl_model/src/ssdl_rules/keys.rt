ghost use Rattle.std.specs.Prelude.{◌≡◌, ◌↔◌, ℕ, List, Contains, IfOk, IsTrue, MatchOption, true, ⊤};
ghost use Rattle.groupings.specs.least_fault.Least.{IsLeast};
ghost use Rattle.layouts.specs.Faults.{fault_cmp};
ghost use Rattle.csdl_types.specs.Keys.{IsKeySimple};
ghost use Rattle.ssdl_model.specs.ssdl_lists.Columns.{column_simple};
ghost use Rattle.ssdl_model.specs.ssdl_rules.TableRules.{BreaksTableKey, HasNullableKey, IsKeyColumnFault, IsTableKeyFault};

use crate::ssdl_lists::column_simple;
use csdl_names::{RawProp, RawType};
use csdl_types::{KeyTest, first_failing_key_prop, is_key, is_key_simple, stands_in};
use emc_base::{Memory, Txt};
use layouts::{Fault, Rule, fault_if};
use std::alloc::Global;

/// V23: a column of a key holds whole numbers of two to eight bytes, or texts.
#[derive(Clone, Copy)]
struct KeyColumns {}

impl KeyTest for KeyColumns {
    ghost fails = { λ _ column. ¬ IsKeySimple (column_simple column.kind) };

    fn is_failing(&self, prop: &RawProp) -> bool {
        !is_key_simple(column_simple(prop.kind.as_str()))
    }
}

/// The least fault of a table's type against V23.
pub(super) fn first_key_column_fault(alloc: Global, ty: &RawType) -> Result<Option<Fault>, Memory>
    ensures { IfOk result (λ found. IsLeast fault_cmp (IsKeyColumnFault ty.now) found) }
{
    let found = first_failing_key_prop(alloc, Rule::KeyColumn, &KeyColumns {}, ty)?;
    Ok(found)
}

/// The least fault of a table's type against V22.
pub(super) fn first_table_key_fault(alloc: Global, ty: &RawType) -> Result<Option<Fault>, Memory>
    ensures { IfOk result (λ found. IsLeast fault_cmp (IsTableKeyFault ty.now) found) }
{
    let found = fault_if(alloc, breaks_key_of(ty), Rule::TableKey, "Key")?;
    Ok(found)
}

// Whether the type has no key, or one that is none.
fn breaks_key_of(ty: &RawType) -> bool
    ensures { IsTrue result ↔ MatchOption ty.now.key ⊤ (BreaksTableKey ty.now.props) }
{
    let Some(key) = &ty.key else {
        return true;
    };
    breaks_table_key(ty.props.as_slice(), key.as_slice())
}

// Whether these names are no key of a table with these columns. Where they may be names of a key, they are four at most.
fn breaks_table_key(columns: &[RawProp], names: &[Txt]) -> bool
    ensures { IsTrue result ↔ BreaksTableKey columns.now names.now }
{
    !is_key(names) || has_nullable_key(columns, names)
}

// Whether a column of one of these names may be null.
fn has_nullable_key(columns: &[RawProp], names: &[Txt]) -> bool
    ensures { IsTrue result ↔ HasNullableKey names.now columns.now }
{
    columns
        .iter()
        .any(|column| is_nullable_among(names, column))
}

// Whether a column has one of these names, and may be null.
fn is_nullable_among(names: &[Txt], column: &RawProp) -> bool
    ensures { IsTrue result ↔ (Contains names.now column.now.name × (column.now.nullable ≡ true)) }
{
    column.nullable && stands_in(&column.name, names)
}
