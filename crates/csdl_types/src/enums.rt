ghost use Rattle.std.specs.Prelude.{◌≡◌, ◌↔◌, IfOk, IsTrue, [], MatchOption, Option, None};
ghost use Rattle.groupings.specs.least_fault.Least.{IsLeast};
ghost use Rattle.layouts.specs.Faults.{fault_cmp};
ghost use Rattle.csdl_types.specs.Numbers.{numbers_of, under_of};
ghost use Rattle.csdl_types.specs.PropTypes.{IsEnumFault, IsMemberFault, IsUnderFault, IsWithoutMembersFault};

use crate::numbers::{is_outside, numbers_of, under_of};
use csdl_names::RawEnum;
use emc_base::{Memory, Under};
use groupings::{Finder, earlier};
use layouts::{Fault, Rule, fault_here_if, fault_if, first_in_list};
use std::alloc::Global;

/// V12: whether the number of a member lies outside of what underlies its enumeration.
#[derive(Clone, Copy)]
struct Numbers {
    under: Under,
}

impl Finder<i128, Fault> for Numbers {
    ghost use Rattle.csdl_types.specs.PropTypes.{IsNumberFault};

    ghost wrong = { λ s _ number. IsNumberFault s.under number };

    fn find(&self, alloc: Global, _place: usize, item: &i128) -> Result<Option<Fault>, Memory> {
        let is_broken = is_outside(self.under, item);
        let found = fault_here_if(alloc, is_broken, Rule::PropertyType)?;
        Ok(found)
    }
}

/// The least fault of an enumeration type against V12.
pub(crate) fn first_enum_fault(
    alloc: Global,
    enumeration: &RawEnum,
) -> Result<Option<Fault>, Memory>
    ensures { IfOk result (IsLeast fault_cmp (IsEnumFault enumeration.now)) }
{
    let no_under = first_under_fault(alloc, enumeration)?;
    let no_members = first_member_lack(alloc, enumeration)?;
    let member = first_member_fault(alloc, enumeration)?;
    Ok(earlier(no_under, earlier(no_members, member)))
}

fn first_under_fault(alloc: Global, enumeration: &RawEnum) -> Result<Option<Fault>, Memory>
    ensures { IfOk result (IsLeast fault_cmp (IsUnderFault enumeration.now)) }
{
    let is_broken = has_no_under(enumeration);
    let found = fault_if(alloc, is_broken, Rule::PropertyType, "UnderlyingType")?;
    Ok(found)
}

fn has_no_under(enumeration: &RawEnum) -> bool
    ensures { IsTrue result ↔ (under_of enumeration.now ≡ None) }
{
    under_of(enumeration).is_none()
}

fn first_member_lack(alloc: Global, enumeration: &RawEnum) -> Result<Option<Fault>, Memory>
    ensures { IfOk result (IsLeast fault_cmp (IsWithoutMembersFault enumeration.now)) }
{
    let is_broken = enumeration.members.is_empty();
    let found = fault_if(alloc, is_broken, Rule::PropertyType, "Member")?;
    Ok(found)
}

fn first_member_fault(alloc: Global, enumeration: &RawEnum) -> Result<Option<Fault>, Memory>
    ensures { IfOk result (IsLeast fault_cmp (IsMemberFault enumeration.now)) }
{
    let Some(under) = under_of(enumeration) else {
        return Ok(None);
    };
    let numbers = numbers_of(alloc, enumeration)?;
    let found = first_in_list(alloc, "Member", &Numbers { under }, numbers.as_slice())?;
    Ok(found)
}
