use emc_base::{ColId, Kind, Seq, TableId, Txt};

/// A store model: what an SSDL document of version 3 says. Tables and foreign keys stand in the order of their arrays.
#[derive(Drop)]
pub struct StoreModel {
    pub namespace: Txt,
    pub container: Txt,
    pub tables: Seq<Table>,
    pub keys: Seq<ForeignKey>,
}

/// A table, with the columns of its primary key in the order of the document's Key.
#[derive(Drop)]
pub struct Table {
    pub name: Txt,
    pub cols: Seq<Column>,
    pub key: Seq<ColId>,
}

/// A column. `int` is told as `Int32`, and so on.
#[derive(Drop)]
pub struct Column {
    pub name: Txt,
    pub kind: Kind,
    pub nullable: bool,
}

/// A foreign key: where none of its columns is null, the row refers to the one that has these values in `to_cols`. The two
/// lists match item by item.
#[derive(Drop)]
pub struct ForeignKey {
    pub name: Txt,
    pub from: TableId,
    pub from_cols: Seq<ColId>,
    pub to: TableId,
    pub to_cols: Seq<ColId>,
}
