ghost use Rattle.std.specs.Prelude.{◌≡◌, IfOk, map};
ghost use Rattle.query_cases.specs.case_reading.Noted.{AreNoted, first_source, source_by};
ghost use Rattle.query_cases.specs.case_reading.Shown.{shown_props};

use crate::case_reading::firsts::first_of;
use crate::case_reading::reading::{CellPlace, Source, Twins};
use crate::case_reading::shown::shown_props;
use case_laws::CaseRow;
use condition_logic::{Atom, AtomOf};
use emc_base::{Memory, PropId, Seq, Value};
use std::alloc::Global;
use std::collections::BTreeMap;
use symbolic_rows::atom_at;

/// The first cell that shows each property, and the twins. `Memory` comes where memory ran out.
pub(super) fn twins_of(
    alloc: Global,
    rows: &[CaseRow],
) -> Result<(BTreeMap<u32, CellPlace>, Seq<Twins>), Memory>
    ensures { IfOk result (λ noted. AreNoted (shown_props rows.now) noted.0 noted.1) }
{
    let shown = shown_props(alloc, rows)?;
    let mut firsts = BTreeMap::new(alloc);
    let mut twins = Seq::empty(alloc);
    for (property, place) in shown.as_slice() {
        let first = first_of(&mut firsts, property.index, *place)?;
        if first != *place {
            twins.push(Twins {
                first,
                later: *place,
            })?;
        }
    }
    Ok((firsts, twins))
}

/// Where the values of properties are read. `Memory` comes where memory ran out.
pub(super) fn sources_of(
    alloc: Global,
    atoms: &[AtomOf],
    firsts: &BTreeMap<u32, CellPlace>,
    props: &[PropId],
) -> Result<Seq<Source>, Memory>
    ensures { IfOk result (λ sources. sources ≡ map (source_by atoms.now firsts.now) props.now) }
{
    let mut sources = Seq::empty(alloc);
    for property in props {
        sources.push(source_of(alloc, atoms, firsts, *property)?)?;
    }
    Ok(sources)
}

// Where the value of a property is read.
fn source_of(
    alloc: Global,
    atoms: &[AtomOf],
    firsts: &BTreeMap<u32, CellPlace>,
    property: PropId,
) -> Result<Source, Memory>
    ensures { IfOk result (λ source. source ≡ source_by atoms.now firsts.now property) }
{
    match atom_at(atoms, property) {
        Some(
            AtomOf {
                atom: Atom::Null,
                ..
            },
        ) => Ok(Source::Is(Value::Null)),
        Some(
            AtomOf {
                atom: Atom::Is(value),
                ..
            },
        ) => Ok(Source::Is(value.copy(alloc)?)),
        Some(
            AtomOf {
                atom: Atom::Other,
                ..
            },
        )
        | None => Ok(first_source(firsts, property)),
    }
}

// The same of a property that may have several values.
fn first_source(firsts: &BTreeMap<u32, CellPlace>, property: PropId) -> Source
    ensures { result ≡ first_source firsts.now property }
{
    match firsts.get(&property.index) {
        Some(place) => Source::Cell(*place),
        None => Source::Is(Value::Null),
    }
}
