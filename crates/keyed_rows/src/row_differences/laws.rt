ghost use Rattle.std.specs.Prelude.{Bool, List, Option};
ghost use Rattle.round_trip.specs.Words.{ColId, Row, StoreModel, TableId, Tables, Value};
ghost use Rattle.keyed_rows.specs.row_differences.Differences.{DifferAt};
ghost use Rattle.keyed_rows.specs.row_differences.SameButFree.{AreSameButFree, HasKeptKeys, HaveRowsApart};

/// Where tables are the fresh ones but for free cells, no row differs; so a difference that is told excludes that they are.
pub fn same_tables_have_no_difference()
    ensures { (store : StoreModel) (is_free : TableId → ColId → Bool) (tables fresh : Tables) → HasKeptKeys store is_free → HaveRowsApart store fresh
        → AreSameButFree store is_free tables fresh → (t : TableId) (key : List Value) (held demanded : Option Row)
        → ¬ DifferAt store is_free tables fresh t key held demanded }
{}
