ghost use Rattle.std.specs.Prelude.{◌≡◌, IfOk, option_and_then, slice_get};
ghost use Rattle.std.specs.Option.{option_copied};
ghost use Rattle.json_form.specs.Nodes.{part_of};
ghost use Rattle.groupings.specs.least_fault.Least.{IsLeast};
ghost use Rattle.data_documents.specs.shape_faults.Places.{place_cmp};
ghost use Rattle.groupings.specs.name_places.PlacesIn.{place_in};
ghost use Rattle.data_documents.specs.table_documents.Shapes.{IsCellFault, IsDocFault, IsMemberFault, IsRowsFault};

use crate::shape_faults::{
    MemberSearch, NodeSearch, ShapePlace, first_in_array, first_in_object, first_lack, here_if,
    value_of_node,
};
use edm_types::{Column, StoreModel, Table};
use emc_base::Memory;
use groupings::{Finder, Places, earlier, first_among};
use json_form::Node;
use schema_names::places_by;
use std::alloc::Global;

/// The first place at which the root of a table document is of another shape; `None` exactly where there is none.
pub fn first_fault(
    alloc: Global,
    store: &StoreModel,
    root: Node<'_>,
) -> Result<Option<ShapePlace>, Memory>
    ensures { IfOk result (λ found. IsLeast place_cmp (IsDocFault store.now (part_of root.entry)) found) }
{
    let tables = store.tables.as_slice();
    let places = places_by(alloc, tables, |table| &table.name)?;
    let search = TableSearch {
        tables,
        places: &places,
    };
    first_in_object(alloc, &search, root)
}

/// Looks at the members of a table document.
#[derive(Clone, Copy)]
struct TableSearch<'a> {
    tables: &'a [Table],
    /// Where the name of each table is given first.
    places: &'a Places,
}

impl<'a> MemberSearch for TableSearch<'a> {
    ghost use Rattle.std.specs.Prelude.{option_and_then, slice_get};
    ghost use Rattle.groupings.specs.name_places.PlacesIn.{place_in};
    ghost use Rattle.data_documents.specs.table_documents.Shapes.{IsMemberFault};

    ghost wrong = { λ s name. IsMemberFault (option_and_then (slice_get s.tables.now) (place_in s.places.now name)) };

    fn find(
        &self,
        alloc: Global,
        name: &str,
        node: Node<'_>,
    ) -> Result<Option<ShapePlace>, Memory> {
        first_in_table(alloc, table_at(self.tables, self.places, name), node)
    }
}

// The table of a name.
fn table_at<'a>(tables: &'a [Table], places: &Places, name: &str) -> Option<&'a Table>
    ensures { option_copied result ≡ option_and_then (slice_get tables.now) (place_in places.now name.now) }
{
    tables.get(places.place_of(name)?)
}

// The first place at which the member of a table is of another shape; the member itself, where there is no such table.
fn first_in_table(
    alloc: Global,
    table: Option<&Table>,
    node: Node<'_>,
) -> Result<Option<ShapePlace>, Memory>
    ensures { IfOk result (λ found. IsLeast place_cmp (IsMemberFault (option_copied table.entry) (part_of node.entry)) found) }
{
    match table {
        None => Ok(Some(ShapePlace::here(alloc))),
        Some(table) => first_in_rows(alloc, table.cols.as_slice(), node),
    }
}

// The first place at which the rows of a table with these columns are of another shape.
fn first_in_rows(
    alloc: Global,
    cols: &[Column],
    node: Node<'_>,
) -> Result<Option<ShapePlace>, Memory>
    ensures { IfOk result (λ found. IsLeast place_cmp (IsRowsFault cols.now (part_of node.entry)) found) }
{
    let places = places_by(alloc, cols, |column| &column.name)?;
    let search = RowSearch {
        cols,
        places: &places,
    };
    first_in_array(alloc, &search, node)
}

/// Looks at the rows of a table.
#[derive(Clone, Copy)]
struct RowSearch<'a> {
    cols: &'a [Column],
    /// Where the name of each column is given first.
    places: &'a Places,
}

impl<'a> NodeSearch for RowSearch<'a> {
    ghost use Rattle.std.specs.Prelude.{option_and_then, slice_get};
    ghost use Rattle.groupings.specs.name_places.PlacesIn.{place_in};
    ghost use Rattle.data_documents.specs.table_documents.Shapes.{IsRowFaultBy};

    ghost wrong = { λ s. IsRowFaultBy (λ name. option_and_then (slice_get s.cols.now) (place_in s.places.now name)) s.cols.now };

    fn find(&self, alloc: Global, node: Node<'_>) -> Result<Option<ShapePlace>, Memory> {
        let cells = CellSearch {
            cols: self.cols,
            places: self.places,
        };
        let inside = first_in_object(alloc, &cells, node)?;
        let missing = first_among(alloc, &LackSearch { row: node }, self.cols)?;
        Ok(earlier(inside, missing))
    }
}

/// Looks at the members of a row.
#[derive(Clone, Copy)]
struct CellSearch<'a> {
    cols: &'a [Column],
    /// Where the name of each column is given first.
    places: &'a Places,
}

impl<'a> MemberSearch for CellSearch<'a> {
    ghost use Rattle.std.specs.Prelude.{option_and_then, slice_get};
    ghost use Rattle.groupings.specs.name_places.PlacesIn.{place_in};
    ghost use Rattle.data_documents.specs.table_documents.Shapes.{IsCellFault};

    ghost wrong = { λ s name. IsCellFault (option_and_then (slice_get s.cols.now) (place_in s.places.now name)) };

    fn find(
        &self,
        alloc: Global,
        name: &str,
        node: Node<'_>,
    ) -> Result<Option<ShapePlace>, Memory> {
        first_in_cell(alloc, column_at(self.cols, self.places, name), node)
    }
}

// The column of a name.
fn column_at<'a>(cols: &'a [Column], places: &Places, name: &str) -> Option<&'a Column>
    ensures { option_copied result ≡ option_and_then (slice_get cols.now) (place_in places.now name.now) }
{
    cols.get(places.place_of(name)?)
}

// The member of a row, where it is of another shape or that of no column.
fn first_in_cell(
    alloc: Global,
    column: Option<&Column>,
    node: Node<'_>,
) -> Result<Option<ShapePlace>, Memory>
    ensures { IfOk result (λ found. IsLeast place_cmp (IsCellFault (option_copied column.entry) (part_of node.entry)) found) }
{
    let Some(column) = column else {
        return Ok(Some(ShapePlace::here(alloc)));
    };
    let value = value_of_node(alloc, &column.kind, node)?;
    Ok(here_if(alloc, value.is_none()))
}

/// Looks for columns that a row has no member for.
#[derive(Clone, Copy)]
struct LackSearch<'a> {
    row: Node<'a>,
}

impl<'a> Finder<Column, ShapePlace> for LackSearch<'a> {
    ghost use Rattle.json_form.specs.Nodes.{part_of};
    ghost use Rattle.data_documents.specs.shape_faults.Nodes.{IsLack};

    ghost wrong = { λ s rank column. IsLack rank column.name (part_of s.row) };

    fn find(
        &self,
        alloc: Global,
        place: usize,
        column: &Column,
    ) -> Result<Option<ShapePlace>, Memory> {
        first_lack(alloc, place, column.name.as_str(), self.row)
    }
}
