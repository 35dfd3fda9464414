ghost use Rattle.std.specs.Prelude.{◌≡◌, ◌↔◌, IfOk, IsTrue, List, map};
ghost use Rattle.round_trip.specs.Words.{Column};
ghost use Rattle.emc_base.specs.Lists.{AreApart};
ghost use Rattle.groupings.specs.name_places.GivenNames.{IsGivenBefore, first_place};
ghost use Rattle.groupings.specs.name_places.PlacesIn.{place_in};
ghost use Rattle.schema_names.specs.Columns.{AreColumnsOf, IsOfColumns};

use crate::lent_names::places_by;
use edm_types::{Column, Table};
use emc_base::{Memory, Seq};
use groupings::Places;
use std::alloc::Global;

/// Where the columns of a table are.
#[derive(Drop)]
pub struct TableColumns {
    /// The first column of each name.
    pub places: Places,
    /// Whether no two columns have one name.
    pub apart: bool,
}

/// Where the columns of each table are.
pub fn columns_of(alloc: Global, tables: &[Table]) -> Result<Seq<TableColumns>, Memory>
    ensures { IfOk result (AreColumnsOf tables.now) }
{
    let mut columns = Seq::empty(alloc);
    for table in tables {
        columns.push(table_columns(alloc, table.cols.as_slice())?)?;
    }
    Ok(columns)
}

// Where these columns are.
fn table_columns(alloc: Global, cols: &[Column]) -> Result<TableColumns, Memory>
    ensures { IfOk result (IsOfColumns cols.now) }
{
    let places = places_by(alloc, cols, |col| &col.name)?;
    let apart = stand_first(&places, cols);
    Ok(TableColumns { places, apart })
}

// Whether each column is the first of its name.
fn stand_first(places: &Places, cols: &[Column]) -> bool
    requires { place_in places.now ≡ first_place (λ col. col.name) cols.now }
    ensures { IsTrue result ↔ AreApart (map (λ col. col.name) cols.now) }
{
    for (place, col) in cols.iter().enumerate() {
        if is_given_before(places, place, col) {
            return false;
        }
    }
    true
}

// Whether a column before this place has its name.
fn is_given_before(places: &Places, place: usize, col: &Column) -> bool
    ensures { (cols : List Column) → place_in places.now ≡ first_place (λ col. col.name) cols → (IsTrue result ↔ IsGivenBefore (λ col. col.name) cols place col.now) }
{
    places
        .place_of(col.name.as_str())
        .is_some_and(|first| first < place)
}
