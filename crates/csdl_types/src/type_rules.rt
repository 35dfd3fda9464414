ghost use Rattle.std.specs.Prelude.{◌≡◌, ℕ, length, IfOk};
ghost use Rattle.graphs.specs.base_chains.Chains.{base_at, IsAncestor, StaysWithin};
ghost use Rattle.groupings.specs.least_fault.Least.{IsLeast};
ghost use Rattle.layouts.specs.Faults.{fault_cmp};
ghost use Rattle.csdl_names.specs.csdl_lists.References.{base_of, names_in};
ghost use Rattle.csdl_names.specs.csdl_lists.Scopes.{IsScopeOf};
ghost use Rattle.csdl_types.specs.TypeRules.{BreaksTypeRules, BreaksLaterRules};

use crate::bounds::first_bound_fault;
use crate::enums::first_enum_fault;
use crate::inherited::first_inherited_fault;
use crate::keys::{first_key_fault, first_key_prop_fault};
use crate::prop_types::first_prop_type_fault;
use crate::sizes::keep_small;
use csdl_names::{RawEnum, RawModel, RawType, Scope, bases_of};
use emc_base::Memory;
use graphs::{Walk, walk_bases};
use groupings::{Finder, earlier, earlier_of};
use layouts::{Fault, Rule, fault_at_item, first_in_list};
use std::alloc::Global;

/// V9 to V13 of types, of which none is its own ancestor.
#[derive(Clone, Copy)]
struct LaterRules<'a> {
    model: &'a RawModel,
    scope: &'a Scope,
    bases: &'a [Option<usize>],
    ghost known: { IsScopeOf model.now scope.now },
    ghost based: { base_at bases.now ≡ base_of (names_in model.now) model.now },
    ghost within: { StaysWithin (base_at bases.now) (length bases.now) },
    ghost rooted: { (i : ℕ) → ¬ IsAncestor (base_at bases.now) i i },
}

impl<'a> Finder<RawType, Fault> for LaterRules<'a> {
    ghost use Rattle.csdl_names.specs.csdl_lists.References.{names_in};
    ghost use Rattle.csdl_types.specs.TypeRules.{IsLaterFault};

    ghost wrong = { λ s. IsLaterFault (names_in s.model.now) s.model.now };

    fn find(&self, alloc: Global, place: usize, item: &RawType) -> Result<Option<Fault>, Memory> {
        let types = self.model.types.as_slice();
        let key = first_key_fault(alloc, item);
        let key_prop = first_key_prop_fault(alloc, item);
        let inherited = first_inherited_fault(alloc, types, self.bases, place, item);
        let prop_type = first_prop_type_fault(alloc, self.scope, item);
        let bound = first_bound_fault(alloc, item);
        let of_props = earlier_of(inherited, earlier_of(prop_type, bound));
        earlier_of(key, earlier_of(key_prop, of_props))
    }
}

/// V12 of enumeration types.
#[derive(Clone, Copy)]
struct EnumRules {}

impl Finder<RawEnum, Fault> for EnumRules {
    ghost use Rattle.csdl_types.specs.PropTypes.{IsEnumFault};

    ghost wrong = { λ _ _ enum. IsEnumFault enum };

    fn find(&self, alloc: Global, _place: usize, item: &RawEnum) -> Result<Option<Fault>, Memory> {
        let found = first_enum_fault(alloc, item)?;
        Ok(found)
    }
}

/// The least fault against the rules on types: V8 to V13. Types that inherit too much, or stand too deep, count as want of
/// memory.
pub fn first_type_fault(
    alloc: Global,
    model: &RawModel,
    scope: &Scope,
) -> Result<Option<Fault>, Memory>
    requires { IsScopeOf model.now scope.now }
    ensures { IfOk result (IsLeast fault_cmp (BreaksTypeRules model.now)) }
{
    let bases = bases_of(alloc, model, scope)?;
    let found = first_fault_by(alloc, model, scope, bases.as_slice())?;
    Ok(found)
}

// The same, where the bases are known.
fn first_fault_by(
    alloc: Global,
    model: &RawModel,
    scope: &Scope,
    bases: &[Option<usize>],
) -> Result<Option<Fault>, Memory>
    requires known { IsScopeOf model.now scope.now }
    requires based { base_at bases.now ≡ base_of (names_in model.now) model.now }
    requires alike { length bases.now ≡ length model.now.types }
    ensures { IfOk result (IsLeast fault_cmp (BreaksTypeRules model.now)) }
{
    match walk_bases(alloc, bases)? {
        Walk::Cycle(first) => {
            let found = fault_at_item(
                alloc,
                Rule::Ancestors,
                "EntityType",
                Some(first),
                "BaseType",
            )?;
            Ok(found)
        }
        Walk::Order(order) => {
            keep_small(alloc, model.types.as_slice(), bases, order.as_slice())?;
            let found = first_later_fault(alloc, model, scope, bases)?;
            Ok(found)
        }
    }
}

// The least fault against V9 to V13, where no type is its own ancestor.
fn first_later_fault(
    alloc: Global,
    model: &RawModel,
    scope: &Scope,
    bases: &[Option<usize>],
) -> Result<Option<Fault>, Memory>
    requires known { IsScopeOf model.now scope.now }
    requires based { base_at bases.now ≡ base_of (names_in model.now) model.now }
    requires within { StaysWithin (base_at bases.now) (length bases.now) }
    requires rooted { (i : ℕ) → ¬ IsAncestor (base_at bases.now) i i }
    ensures { IfOk result (IsLeast fault_cmp (BreaksLaterRules model.now)) }
{
    let search = LaterRules {
        model,
        scope,
        bases,
    };
    let in_type = first_in_list(alloc, "EntityType", &search, model.types.as_slice())?;
    let in_enum = first_in_list(alloc, "EnumType", &EnumRules {}, model.enums.as_slice())?;
    Ok(earlier(in_type, in_enum))
}
