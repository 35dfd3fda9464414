ghost use Rattle.std.specs.Prelude.{◌≡◌, ◌↔◌, IfOk, IsTrue};
ghost use Rattle.groupings.specs.least_fault.Least.{IsLeast};
ghost use Rattle.layouts.specs.Faults.{fault_cmp};
ghost use Rattle.csdl_types.specs.Simple.{simple_of};
ghost use Rattle.csdl_types.specs.PropTypes.{BreaksBound, HasLength, IsBoundFault, IsNoBound};

use crate::simple::{Simple, simple_of};
use csdl_names::{RawBound, RawProp, RawType};
use emc_base::Memory;
use groupings::Finder;
use layouts::{Fault, Rule, fault_if, first_in_list};
use std::alloc::Global;

/// The largest bound of a text or a byte list.
const LARGEST_BOUND: i64 = 1_048_576;

/// V13: whether a property's MaxLength stands where none may, or is no bound.
#[derive(Clone, Copy)]
struct Bounds {}

impl Finder<RawProp, Fault> for Bounds {
    ghost use Rattle.csdl_types.specs.PropTypes.{IsPropBoundFault};

    ghost wrong = { λ _ _ prop. IsPropBoundFault prop };

    fn find(&self, alloc: Global, _place: usize, item: &RawProp) -> Result<Option<Fault>, Memory> {
        let found = fault_if(alloc, prop_breaks_bound(item), Rule::Bound, "MaxLength")?;
        Ok(found)
    }
}

/// The least fault of a type against V13.
pub(crate) fn first_bound_fault(alloc: Global, ty: &RawType) -> Result<Option<Fault>, Memory>
    ensures { IfOk result (IsLeast fault_cmp (IsBoundFault ty.now)) }
{
    let found = first_in_list(alloc, "Property", &Bounds {}, ty.props.as_slice())?;
    Ok(found)
}

fn prop_breaks_bound(prop: &RawProp) -> bool
    ensures { IsTrue result ↔ BreaksBound (HasLength (simple_of prop.now.kind)) prop.now.bound }
{
    breaks_bound(has_length(simple_of(prop.kind.as_str())), prop.bound)
}

/// Whether a MaxLength stands at a type whose values have no length, or is no bound.
pub fn breaks_bound(has_length: bool, bound: RawBound) -> bool
    ensures { IsTrue result ↔ BreaksBound (IsTrue has_length) bound }
{
    match bound {
        RawBound::Absent => false,
        RawBound::Max => !has_length,
        RawBound::Number(number) => !has_length || is_no_bound(number),
    }
}

/// Whether the values of a simple type have a length.
pub fn has_length(simple: Option<Simple>) -> bool
    ensures { IsTrue result ↔ HasLength simple }
{
    matches!(simple, Some(Simple::Text | Simple::Binary))
}

fn is_no_bound(number: i64) -> bool
    ensures { IsTrue result ↔ IsNoBound number }
{
    !(1..=LARGEST_BOUND).contains(&number)
}
