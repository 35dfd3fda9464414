ghost use Rattle.std.specs.Prelude.{◌≡◌, ◌↔◌, IsTrue, IfOk, codes};
ghost use Rattle.groupings.specs.least_fault.Least.{IsLeast};
ghost use Rattle.layouts.specs.Faults.{fault_cmp};
ghost use Rattle.layouts.specs.rule_places.Places.{InList};
ghost use Rattle.csdl_types.specs.PropTypes.{BreaksBound};
ghost use Rattle.ssdl_model.specs.ssdl_lists.Columns.{HasColumnLength, column_simple};
ghost use Rattle.ssdl_model.specs.ssdl_rules.TableRules.{IsColumnFault};

use crate::ssdl_lists::{column_simple, has_column_length};
use csdl_names::{RawProp, RawType};
use csdl_types::breaks_bound;
use emc_base::Memory;
use groupings::{Finder, earlier};
use layouts::{Fault, Rule, fault_if, first_at};
use std::alloc::Global;

/// V13 and V21: the bound and the Type of a column.
#[derive(Clone, Copy)]
struct Columns {}

impl Finder<RawProp, Fault> for Columns {
    ghost wrong = { λ _. IsColumnFault };

    fn find(&self, alloc: Global, _place: usize, item: &RawProp) -> Result<Option<Fault>, Memory> {
        let kind = item.kind.as_str();
        let has_no_type = column_simple(kind).is_none();
        let bound = fault_if(alloc, column_breaks_bound(item), Rule::Bound, "MaxLength")?;
        let ty = fault_if(alloc, has_no_type, Rule::ColumnType, "Type")?;
        Ok(earlier(bound, ty))
    }
}

// Whether a column has a MaxLength where none may stand, or one that is no bound.
fn column_breaks_bound(column: &RawProp) -> bool
    ensures { IsTrue result ↔ BreaksBound (HasColumnLength column.now.kind) column.now.bound }
{
    breaks_bound(has_column_length(column.kind.as_str()), column.bound)
}

/// The least fault of the columns of a table's type against V13 and V21.
pub(super) fn first_column_fault(alloc: Global, ty: &RawType) -> Result<Option<Fault>, Memory>
    ensures { IfOk result (λ found. IsLeast fault_cmp (InList (codes "Property") IsColumnFault ty.now.props) found) }
{
    let found = first_at(alloc, "Property", &Columns {}, &ty.props)?;
    Ok(found)
}
