ghost use Rattle.std.specs.Prelude.{◌≡◌, length, slice_get, IfOk};
ghost use Rattle.std.specs.Option.{option_and_then};
ghost use Rattle.graphs.specs.base_chains.Chains.{base_at};
ghost use Rattle.csdl_names.specs.csdl_lists.References.{base_of, names_in};
ghost use Rattle.csdl_names.specs.csdl_lists.Scopes.{IsScopeOf, names_of};

use crate::csdl_lists::raw::{RawModel, RawType};
use crate::csdl_lists::scope::Scope;
use emc_base::{Memory, Seq};
use std::alloc::Global;

/// The place of each type's base type in the list of types, where it is found. `Memory` comes where memory ran out.
pub fn bases_of(
    alloc: Global,
    model: &RawModel,
    scope: &Scope,
) -> Result<Seq<Option<usize>>, Memory>
    requires { IsScopeOf model.now scope.now }
    ensures { IfOk result (λ bases. (base_at bases ≡ base_of (names_in model.now) model.now) × (length bases ≡ length model.now.types)) }
{
    let mut bases = Seq::empty(alloc);
    for ty in model.types.as_slice() {
        bases.push(base_type(scope, ty))?;
    }
    Ok(bases)
}

// The place of a type's base type.
fn base_type(scope: &Scope, ty: &RawType) -> Option<usize>
    ensures { result ≡ option_and_then (names_of scope.now).type_named ty.now.base }
{
    scope.type_named(ty.base.as_ref()?.as_str())
}
