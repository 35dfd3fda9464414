ghost use Rattle.std.specs.Prelude.{List, Option};
ghost use Rattle.round_trip.specs.Words.{AssocId, Entity, Hosted, IsLegal, Link, SetId, State, Tables, TablesAre};
ghost use Rattle.round_trip.specs.TablesAre.{HasNoClash};
ghost use Rattle.table_files.specs.declared.tables.TableRow.{TableRow};
ghost use Rattle.cells.specs.declared.cells.Cells.{Cells};
ghost use Rattle.cells.specs.Cells.{TellsCells};
ghost use Rattle.regions.specs.Basis.{Basis};
ghost use Rattle.regions.specs.region_laws.IsBasis.{IsBasis};
ghost use Rattle.regions.specs.region_laws.Partners.{HasFewPartners};
ghost use Rattle.case_laws.specs.filled_rows.Filled.{FillsRows};
ghost use Rattle.delta_plan.specs.RowsOf.{AreTablesOf, giving, rows_of};

/// The law that the rows which views give for the entities and the links of a legal state without a clash, in the tables that they name, are the tables of the
/// state, if each association that is hosted lets an entity have few partners.
pub fn rows_of_views_are_the_tables()
    ensures tables { (basis : Basis) → IsBasis basis → (local : SetId → Entity → List Hosted → List TableRow) (joined : AssocId → Option (Link → TableRow))
        → FillsRows basis local joined → ((s : SetId) → HasFewPartners basis s) → (cells : Cells) → TellsCells basis.schema cells
        → (state : State) → IsLegal basis.schema.model state → HasNoClash basis.schema state
        → (rows : Tables) × AreTablesOf basis.schema.store (rows_of (giving local joined) basis.schema.model cells state) rows
        × TablesAre basis.schema state rows }
{}
