ghost use Rattle.std.specs.Prelude.{◌≡◌, ◌==◌, ◌&&◌, All, Contains, IfNone, IfSome, IsTrue, false, find, map};
ghost use Rattle.std.specs.List.{list_any};
ghost use Rattle.round_trip.specs.Words.{PropId, key_props, props_of};
ghost use Rattle.cells.specs.Parts.{AreParts};
ghost use Rattle.region_states.specs.region_basis.BasisOf.{basis_of};
ghost use Rattle.symbolic_rows.specs.settled_cells.Lent.{shown_possible};
ghost use Rattle.region_states.specs.conflicts.Facts.{lists};
ghost use Rattle.region_states.specs.conflicts.SameFacts.{is_lost, is_multi, is_one_of, lists_anywhere};
ghost use Rattle.containment.specs.same_conflicts.Lost.{is_lost_by};
ghost use Rattle.containment.specs.same_conflicts.Written.{IsWritten, region_in};

use crate::same_conflicts::written::Written;
use cells::Parts;
use edm_types::EntityModel;
use emc_base::{PropId, TypeId};
use regions::{Pattern, PatternRow, Region, Symbol};
use symbolic_rows::{CanBe, possible, stands};

/// A region with a property whose value its entities leave in no row.
#[derive(Drop)]
pub struct Lost<'r> {
    pub region: &'r Region,
    pub prop: PropId,
}

/// The first of these regions with such a property.
pub fn first_lost<'r>(parts: &Parts<'_>, written: &[Written<'r>]) -> Option<Lost<'r>>
    requires { All (IsWritten (basis_of parts.now)) written.now }
    ensures found { IfSome result (λ lost. Contains (map region_in written.now) lost.region.now × IsTrue (is_lost (basis_of parts.now) lost.region.now lost.prop)) }
    ensures none { IfNone result (All (λ one. (p : PropId) → is_lost (basis_of parts.now) (region_in one) p ≡ false) written.now) }
{
    for one in written {
        if let Some(prop) = lost_prop(parts.model, one) {
            return Some(Lost {
                region: one.region,
                prop,
            });
        }
    }
    None
}

// The first property of the region's type that is lost.
fn lost_prop(model: &EntityModel, one: &Written<'_>) -> Option<PropId>
    ensures { result ≡ find (is_lost_by model.now one.now) (props_of model.now one.now.region.now.ty) }
{
    props_of(model, one.region.ty)
        .iter()
        .copied()
        .find(|prop| is_lost(model, one, *prop))
}

// The properties of a type, inherited ones included.
fn props_of(model: &EntityModel, ty: TypeId) -> &[PropId]
    ensures { result.now ≡ props_of model.now ty }
{
    match model.types.get(ty.index as usize) {
        Some(declared) => declared.props.as_slice(),
        None => &[],
    }
}

// Those of its key.
fn key_props(model: &EntityModel, ty: TypeId) -> &[PropId]
    ensures { result.now ≡ key_props model.now ty }
{
    match model.types.get(ty.index as usize) {
        Some(declared) => declared.key.as_slice(),
        None => &[],
    }
}

// Whether a property of the region's type is no part of the key, may have several values, and stands in no cell.
fn is_lost(model: &EntityModel, one: &Written<'_>, prop: PropId) -> bool
    ensures { result ≡ is_lost_by model.now one.now prop }
{
    let symbol = Symbol::Prop(prop);
    !is_one_of(prop, key_props(model, one.region.ty))
        && is_several(&possible(model, one.region.atoms.as_slice(), &symbol))
        && !lists_anywhere(&one.pattern, &symbol)
}

// Whether a property is one of these.
fn is_one_of(prop: PropId, props: &[PropId]) -> bool
    ensures { result ≡ is_one_of prop props.now }
{
    props.iter().any(|other| other.index == prop.index)
}

/// Whether several values are possible.
pub fn is_several(possible: &CanBe<'_>) -> bool
    ensures { result ≡ is_multi (shown_possible possible.now) }
{
    matches!(possible, CanBe::Several { .. })
}

// Whether a pattern lists a symbol.
fn lists_anywhere(pattern: &Pattern, symbol: &Symbol) -> bool
    ensures { result ≡ lists_anywhere pattern.now symbol.now }
{
    pattern
        .rows
        .as_slice()
        .iter()
        .any(|row| lists_in(row, symbol))
}

// Whether a row lists it.
fn lists_in(row: &PatternRow, symbol: &Symbol) -> bool
    ensures { result ≡ list_any (λ cell. lists cell symbol.now) row.now.cells }
{
    row.cells
        .as_slice()
        .iter()
        .any(|cell| stands(cell.as_slice(), symbol))
}
