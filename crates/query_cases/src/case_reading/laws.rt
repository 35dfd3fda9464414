ghost use Rattle.std.specs.Prelude.{◌↔◌, All, Bool, Contains, List};
ghost use Rattle.round_trip.specs.Words.{AreTables, ColId, Row, SetId, TableId, Tables, Value};
ghost use Rattle.case_laws.specs.candidates.Rows.{AreRowsAt};
ghost use Rattle.query_cases.specs.case_cells.Holding.{MayMeet};
ghost use Rattle.query_cases.specs.case_reading.Links.{HasPlace, read_links};
ghost use Rattle.query_cases.specs.case_reading.Reading.{IsReadingOf};
ghost use Rattle.query_cases.specs.case_reading.Sources.{AgreeTwins, read_entity};
ghost use Rattle.query_cases.specs.declared.case_reading.reading.Reading.{Reading};
ghost use Rattle.case_laws.specs.declared.region_cases.case.Case.{Case};
ghost use Rattle.case_laws.specs.region_cases.Cases.{case_of, cases_of};
ghost use Rattle.case_laws.specs.region_cases.Meets.{AreLinksOf, IsEntityOf, MeetsCase};
ghost use Rattle.case_laws.specs.Reading.{DecidesFree};
ghost use Rattle.case_laws.specs.Told.{IsReadable};
ghost use Rattle.regions.specs.declared.region.Region.{Region};
ghost use Rattle.regions.specs.region_laws.IsBasis.{IsBasis};
ghost use Rattle.regions.specs.Basis.{Basis};

/// The rows at a key meet a case exactly where each cell may hold its value by itself and cells that show one property hold one value; and then they tell the
/// entity that is read, and where the region can be read, the links that are read: each from cells that are there.
pub fn met_cases_are_read()
    ensures met { (basis : Basis) → IsBasis basis → (is_free : TableId → ColId → Bool) → (s : SetId) (case : Case) → Contains (cases_of is_free basis s) case
        → (tables : Tables) (key : List Value) (rows : List (TableId × Row)) → AreRowsAt basis.schema tables s key rows
        → (reading : Reading) → IsReadingOf basis case reading
        → MeetsCase basis tables key case ↔ (MayMeet basis case rows × AgreeTwins reading rows) }
    ensures may { (basis : Basis) → IsBasis basis → (is_free : TableId → ColId → Bool) → (s : SetId) (case : Case) → Contains (cases_of is_free basis s) case
        → (tables : Tables) (key : List Value) (rows : List (TableId × Row)) → AreRowsAt basis.schema tables s key rows
        → MeetsCase basis tables key case → MayMeet basis case rows }
    ensures told { (basis : Basis) → IsBasis basis → (is_free : TableId → ColId → Bool) → (s : SetId) (case : Case) → Contains (cases_of is_free basis s) case
        → (tables : Tables) (key : List Value) (rows : List (TableId × Row)) → AreRowsAt basis.schema tables s key rows
        → (reading : Reading) → IsReadingOf basis case reading
        → MeetsCase basis tables key case → IsEntityOf basis tables key case (read_entity reading case.region.ty rows) }
    ensures links { (basis : Basis) → IsBasis basis → (is_free : TableId → ColId → Bool) → DecidesFree basis.schema is_free
        → (s : SetId) (region : Region) → IsReadable basis s region
        → (tables : Tables) (key : List Value) (rows : List (TableId × Row)) → AreRowsAt basis.schema tables s key rows
        → (reading : Reading) → IsReadingOf basis (case_of is_free basis region) reading
        → MeetsCase basis tables key (case_of is_free basis region) → AreLinksOf basis tables key (case_of is_free basis region) (read_links reading rows) }
    ensures places { (basis : Basis) → IsBasis basis → (is_free : TableId → ColId → Bool) → DecidesFree basis.schema is_free
        → (s : SetId) (region : Region) → IsReadable basis s region → (tables : Tables) → AreTables basis.schema.store tables
        → (key : List Value) (rows : List (TableId × Row)) → AreRowsAt basis.schema tables s key rows
        → (reading : Reading) → IsReadingOf basis (case_of is_free basis region) reading
        → MeetsCase basis tables key (case_of is_free basis region) → All (λ link. All (HasPlace rows) link.parts) reading.links }
{}
