ghost use Rattle.std.specs.Prelude.{◌≡◌};
ghost use Rattle.table_files.specs.table_legality.Rules.{rule_number};

/// The rules of tables.
#[derive(Clone, Copy, Debug, PartialEq, Eq)]
pub enum TableRule {
    /// Null stands only in nullable columns.
    NullCell,
    /// Every other value is in the domain of its column.
    CellDomain,
    /// No two rows of a table have one primary key.
    RowKey,
    /// A row that refers by a foreign key finds a row.
    Reference,
}

impl TableRule {
    /// The number that is printed after `B`.
    pub fn number(self) -> u8
        ensures { result ≡ rule_number self }
    {
        match self {
            TableRule::NullCell => 1,
            TableRule::CellDomain => 2,
            TableRule::RowKey => 3,
            TableRule::Reference => 4,
        }
    }
}
