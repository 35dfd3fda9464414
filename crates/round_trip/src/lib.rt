//! What it means that a mapping loses nothing: legal states and tables, what a state demands of the tables, the ways in
//! which a state fails, and the round trip. Nothing here speaks of how any of it is decided.
#![tactic(auto)]

ghost use Rattle.std.specs.Prelude.{◌≡◌};
ghost use Rattle.round_trip.specs.Types.{Breach, EntityModel, State, StoreModel, Tables};
ghost use Rattle.round_trip.specs.legality.Breaches.{IsBreachOf};
ghost use Rattle.round_trip.specs.legality.TableBreaches.{IsBreachOfTables};

/// The ways in which an entity state fails, in the order in which they are told.
#[derive(Clone, Copy, Debug, PartialEq, Eq)]
pub enum FailKind {
    /// One cell has two different demanded values.
    Clash,
    /// A demanded row has null in a column that isn't nullable.
    Null,
    /// A fragment doesn't agree with the tables.
    Disagrees,
    /// A foreign key whose columns are all not null finds no row.
    Dangling,
    /// Another legal state has the same tables.
    Same,
}

/// The law that no two different breaches are told: of a state, and of tables.
pub fn one_breach()
    ensures states { (model : EntityModel) (state : State) (one two : Breach) → IsBreachOf model state one → IsBreachOf model state two → one ≡ two }
    ensures tables { (store : StoreModel) (tables : Tables) (one two : Breach) → IsBreachOfTables store tables one → IsBreachOfTables store tables two → one ≡ two }
{}
