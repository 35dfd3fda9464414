ghost use Rattle.std.specs.Prelude.{◌≡◌, ◌↔◌, IfOk, IsTrue};
ghost use Rattle.groupings.specs.least_fault.Least.{IsLeast};
ghost use Rattle.layouts.specs.Faults.{fault_cmp};
ghost use Rattle.csdl_names.specs.csdl_lists.Scopes.{names_of};
ghost use Rattle.csdl_types.specs.PropTypes.{HasNoType, IsPropTypeFault};

use crate::simple::simple_of;
use csdl_names::{RawProp, RawType, Scope};
use emc_base::Memory;
use groupings::Finder;
use layouts::{Fault, Rule, fault_if, first_in_list};
use std::alloc::Global;

/// V12: whether a property's Type names nothing.
#[derive(Clone, Copy)]
struct PropTypes<'a> {
    scope: &'a Scope,
}

impl<'a> Finder<RawProp, Fault> for PropTypes<'a> {
    ghost use Rattle.csdl_names.specs.csdl_lists.Scopes.{names_of};
    ghost use Rattle.csdl_types.specs.PropTypes.{IsNoTypeFault};

    ghost wrong = { λ s _ prop. IsNoTypeFault (names_of s.scope.now).enum_named prop };

    fn find(&self, alloc: Global, _place: usize, item: &RawProp) -> Result<Option<Fault>, Memory> {
        let is_broken = has_no_type(self.scope, item);
        let found = fault_if(alloc, is_broken, Rule::PropertyType, "Type")?;
        Ok(found)
    }
}

/// The least fault of a type's properties against V12.
pub(crate) fn first_prop_type_fault(
    alloc: Global,
    scope: &Scope,
    ty: &RawType,
) -> Result<Option<Fault>, Memory>
    ensures { IfOk result (IsLeast fault_cmp (IsPropTypeFault (names_of scope.now).enum_named ty.now)) }
{
    let found = first_in_list(alloc, "Property", &PropTypes { scope }, ty.props.as_slice())?;
    Ok(found)
}

fn has_no_type(scope: &Scope, prop: &RawProp) -> bool
    ensures { IsTrue result ↔ HasNoType (names_of scope.now).enum_named prop.now }
{
    simple_of(prop.kind.as_str()).is_none() && scope.enum_named(prop.kind.as_str()).is_none()
}
