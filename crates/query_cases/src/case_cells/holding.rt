ghost use Rattle.std.specs.Prelude.{◌≡◌, ◌↔◌, Contains, IsTrue};
ghost use Rattle.std.specs.List.{list_any};
ghost use Rattle.emc_base.specs.Lists.{At};
ghost use Rattle.cells.specs.Parts.{AreParts};
ghost use Rattle.condition_logic.specs.declared.atoms.Atom.TheVariants.{Other};
ghost use Rattle.regions.specs.Atoms.{LiesIn};
ghost use Rattle.schema_laws.specs.state_demand.Selecting.{same_value};
ghost use Rattle.region_states.specs.region_basis.BasisOf.{basis_of};
ghost use Rattle.case_laws.specs.declared.region_cases.case.CaseCell.TheVariants as cell;
ghost use Rattle.round_trip.specs.Words.{InDomain, Prop as Declared};
ghost use Rattle.query_cases.specs.case_cells.Holding.{MayBeIn, MayHold};

use case_laws::CaseCell;
use cells::Parts;
use condition_logic::Atom;
use edm_types::Prop;
use emc_base::{PropId, Seq, Value, in_domain};
use entity_state::is_null;
use region_partition::constants_of;
use regions::Region;
use symbolic_rows::atom_at;

/// Whether a cell of the region's case may hold the value, whatever other cells hold.
pub fn may_hold(parts: &Parts<'_>, region: &Region, cell: &CaseCell, value: &Value) -> bool
    requires { AreParts parts.now }
    ensures { IsTrue result ↔ MayHold (basis_of parts.now) region.now cell.now value.now }
{
    match cell {
        CaseCell::Const(one) => is_same(value, one),
        CaseCell::Prop(property) => may_be(parts, region, *property, value),
        CaseCell::Partner { prop, .. } => is_part(parts, *prop, value),
        CaseCell::Free => true,
    }
}

// Whether two values are one.
fn is_same(one: &Value, other: &Value) -> bool
    ensures { IsTrue result ↔ (one.now ≡ other.now) }
{
    one == other
}

// Whether a property may have the value in the region.
fn may_be(parts: &Parts<'_>, region: &Region, property: PropId, value: &Value) -> bool
    requires { AreParts parts.now }
    ensures { IsTrue result ↔ MayHold (basis_of parts.now) region.now (cell.Prop property) value.now }
{
    match parts.model.props.get(property.index as usize) {
        Some(declared) => may_be_declared(parts, region, property, declared, value),
        None => true,
    }
}

// The same of a property with its declaration: in its domain, or null where it isn't tested and is nullable.
fn may_be_declared(
    parts: &Parts<'_>,
    region: &Region,
    property: PropId,
    declared: &Prop,
    value: &Value,
) -> bool
    requires parts { AreParts parts.now }
    requires here { At parts.now.model.now.props property.index declared.now }
    ensures { IsTrue result ↔ MayBeIn (basis_of parts.now) region.now property declared.now value.now }
{
    let fits = in_domain(value, &declared.kind);
    match atom_at(region.atoms.as_slice(), property) {
        Some(told) => fits && keeps_apart(constants_of(parts, property), &told.atom, value),
        None => fits || (declared.nullable && is_null(value)),
    }
}

// Whether the value is neither null nor a constant, where the atom is other.
fn keeps_apart(constants: &Seq<Value>, atom: &Atom, value: &Value) -> bool
    ensures { IsTrue result ↔ (atom.now ≡ Other → LiesIn constants.now Other value.now) }
{
    match atom {
        Atom::Other => !is_null(value) && !is_among(constants.as_slice(), value),
        Atom::Null | Atom::Is(_) => true,
    }
}

// Whether the value may be a part of a partner's key.
fn is_part(parts: &Parts<'_>, property: PropId, value: &Value) -> bool
    requires { AreParts parts.now }
    ensures { IsTrue result ↔ ((declared : Declared) → At parts.now.model.now.props property.index declared → InDomain value.now declared.kind) }
{
    match parts.model.props.get(property.index as usize) {
        Some(declared) => in_domain(value, &declared.kind),
        None => true,
    }
}

// Whether the value is one of these.
fn is_among(values: &[Value], value: &Value) -> bool
    ensures { IsTrue result ↔ Contains values.now value.now }
{
    has(values, value)
}

fn has(values: &[Value], value: &Value) -> bool
    ensures { result ≡ list_any (same_value value.now) values.now }
{
    values.iter().any(|other| value == other)
}
