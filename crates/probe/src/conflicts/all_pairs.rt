//! What makes two states have the same tables, told by comparing all pairs of regions: the definitions as they stand.
ghost use Rattle.cells.specs.Parts.{AreParts};

use cells::Parts;
use condition_logic::AtomOf;
use edm_types::EntityModel;
use emc_base::{Memory, PropId, Seq};
use regions::{Pattern, PatternRow, Region, Symbol};
use std::alloc::Global;
use symbolic_rows::{CanBe, can_be_null, possible, region_pattern};

/// A region with its pattern.
#[derive(Drop)]
struct Shown<'r> {
    region: &'r Region,
    pattern: Pattern,
}

/// Whether entities of some region write no row, some property is lost, or entities of two regions can write the same rows.
pub fn has_same_tables(alloc: Global, parts: &Parts<'_>, regions: &[Region]) -> Result<bool, Memory>
    requires { AreParts parts.now }
{
    let mut before = Vec::new(alloc);
    for region in regions {
        let pattern = region_pattern(alloc, parts, region)?;
        let shown = Shown { region, pattern };
        if is_same(parts.model, &shown, before.as_slice()) {
            return Ok(true);
        }
        before.push(shown)?;
    }
    Ok(false)
}

// The same of one region and those before it.
fn is_same(model: &EntityModel, shown: &Shown<'_>, before: &[Shown<'_>]) -> bool {
    shown.pattern.rows.is_empty()
        || loses_a_property(model, shown)
        || has_rival(model, shown, before)
}

// Whether a property that is no part of the key, and may have several values, stands in no cell.
fn loses_a_property(model: &EntityModel, shown: &Shown<'_>) -> bool {
    let Some(declared) = model.types.get(shown.region.ty.index as usize) else {
        return false;
    };
    for prop in declared.props.as_slice() {
        if !declared.key.as_slice().contains(prop)
            && is_several(model, shown.region.atoms.as_slice(), *prop)
            && !stands_somewhere(&shown.pattern, *prop)
        {
            return true;
        }
    }
    false
}

fn is_several(model: &EntityModel, atoms: &[AtomOf], prop: PropId) -> bool {
    matches!(
        possible(model, atoms, &Symbol::Prop(prop)),
        CanBe::Several { .. }
    )
}

fn stands_somewhere(pattern: &Pattern, prop: PropId) -> bool {
    for row in pattern.rows.as_slice() {
        for cell in row.cells.as_slice() {
            if lists(cell, prop) {
                return true;
            }
        }
    }
    false
}

fn lists(cell: &Seq<Symbol>, prop: PropId) -> bool {
    for symbol in cell.as_slice() {
        if matches!(symbol, Symbol::Prop(other) if *other == prop) {
            return true;
        }
    }
    false
}

// Whether entities of one of these regions can write the same rows.
fn has_rival(model: &EntityModel, shown: &Shown<'_>, others: &[Shown<'_>]) -> bool {
    for other in others {
        if are_rivals(model, other, shown) {
            return true;
        }
    }
    false
}

// Whether entities of two regions can write the same rows, with the same links there.
fn are_rivals(model: &EntityModel, one: &Shown<'_>, two: &Shown<'_>) -> bool {
    let rows = one.pattern.rows.len();
    if one.region.linked.as_slice() != two.region.linked.as_slice()
        || rows != two.pattern.rows.len()
    {
        return false;
    }
    for place in 0..rows {
        if !rows_match(model, one, two, place) {
            return false;
        }
    }
    true
}

// Whether the rows at a place, each of a region, are of one table and can hold the same.
fn rows_match(model: &EntityModel, one: &Shown<'_>, two: &Shown<'_>, place: usize) -> bool {
    match (one.pattern.rows.get(place), two.pattern.rows.get(place)) {
        (Some(row), Some(other)) => {
            row.table == other.table && cells_match(model, (one.region, row), (two.region, other))
        }
        _ => false,
    }
}

// Whether the cells of two rows, each of a region, can hold the same.
fn cells_match(
    model: &EntityModel,
    one: (&Region, &PatternRow),
    two: (&Region, &PatternRow),
) -> bool {
    for place in 0..one.1.cells.len() {
        if !can_be_one(&settled(model, one, place), &settled(model, two, place)) {
            return false;
        }
    }
    true
}

// What the cell at a place of a region's row can hold: null where nothing is listed, else what the first symbol can be.
fn settled<'c>(
    model: &EntityModel,
    (region, row): (&'c Region, &'c PatternRow),
    place: usize,
) -> CanBe<'c> {
    match row.cells.get(place) {
        Some(cell) => first_of(model, region.atoms.as_slice(), cell.as_slice()),
        None => CanBe::Null,
    }
}

// What the first of some symbols can be, or null.
fn first_of<'c>(model: &EntityModel, atoms: &'c [AtomOf], cell: &'c [Symbol]) -> CanBe<'c> {
    match cell.first() {
        Some(symbol) => possible(model, atoms, symbol),
        None => CanBe::Null,
    }
}

// Whether some value is in both.
fn can_be_one(one: &CanBe<'_>, two: &CanBe<'_>) -> bool {
    match (one, two) {
        (CanBe::Several { .. }, CanBe::Several { .. }) => true,
        (CanBe::One(value), CanBe::One(other)) => *value == *other,
        _ => can_be_null(one) && can_be_null(two),
    }
}
