ghost use Rattle.std.specs.Prelude.{◌≡◌, IfOk, length};
ghost use Rattle.round_trip.specs.soundness.mappings.Joined.{prop, col};
ghost use Rattle.member_groups.specs.joined_groups.Labels.{label_of};
ghost use Rattle.member_groups.specs.group_numbers.Numbers.{AreNumbered, AreNumbers, AreTables, Grows, Notes, number_in};

use crate::joined_groups::{Groups, Label, column_label, prop_label};
use edm_types::{EntityModel, StoreModel, Table};
use emc_base::{ColId, GroupId, Memory, PropId, Seq, TableId};
use indexmap::IndexSet;
use std::alloc::Global;

/// The groups of a model's properties and a store's columns, numbered from 0. A part of a key is alone in its group.
#[derive(Drop)]
pub struct Numbers {
    /// The group of each property.
    pub props: Seq<GroupId>,
    /// The group of each column of each table.
    pub tables: Seq<Seq<GroupId>>,
    /// How many groups there are.
    pub count: usize,
}

impl Numbers {
    /// The groups of all properties and columns: one for each label. `Memory` comes where memory ran out or there are more than
    /// a `u32` counts.
    pub fn of(
        alloc: Global,
        groups: &Groups,
        model: &EntityModel,
        store: &StoreModel,
    ) -> Result<Numbers, Memory>
        ensures { IfOk result (AreNumbers groups.now model.now store.now) }
    {
        let mut labels = IndexSet::new(alloc);
        let props = prop_numbers(alloc, groups, model, &mut labels)?;
        let tables = table_numbers(alloc, groups, store, &mut labels)?;
        Ok(Numbers {
            props,
            tables,
            count: labels.len(),
        })
    }

    /// The group of a property. `None` exactly where there is no such property.
    pub fn of_prop(&self, property: PropId) -> Option<GroupId>
        ensures { result ≡ number_in self.now (prop property) }
    {
        self.props.get(property.index as usize).copied()
    }

    /// The group of a column. `None` exactly where there is no such column.
    pub fn of_column(&self, table: TableId, column: ColId) -> Option<GroupId>
        ensures { result ≡ number_in self.now (col table column) }
    {
        let columns = self.tables.get(table.index as usize)?;
        columns.get(column.index as usize).copied()
    }
}

// The number of a label among these, at whose end it comes where it is new.
fn noted(labels: &mut IndexSet<Label>, label: Label) -> Result<GroupId, Memory>
    ensures { IfOk result (Notes labels.old.keys labels.new.keys label) }
{
    let (place, _) = labels.insert_full(label)?;
    match u32::try_from(place) {
        Ok(index) => Ok(GroupId { index }),
        Err(_) => Err(Memory),
    }
}

// The numbers of all properties.
fn prop_numbers(
    alloc: Global,
    groups: &Groups,
    model: &EntityModel,
    labels: &mut IndexSet<Label>,
) -> Result<Seq<GroupId>, Memory>
    ensures grown { IfOk result (λ _. Grows labels.old.keys labels.new.keys) }
    ensures numbered { IfOk result (AreNumbered labels.new.keys (λ i. label_of groups.now (prop (record { index = i }))) (length model.now.props)) }
{
    let mut numbers = Seq::empty(alloc);
    for place in 0..model.props.len() {
        let property = PropId {
            index: place as u32,
        };
        numbers.push(noted(labels, prop_label(groups, property))?)?;
    }
    Ok(numbers)
}

// The numbers of all columns of all tables.
fn table_numbers(
    alloc: Global,
    groups: &Groups,
    store: &StoreModel,
    labels: &mut IndexSet<Label>,
) -> Result<Seq<Seq<GroupId>>, Memory>
    ensures grown { IfOk result (λ _. Grows labels.old.keys labels.new.keys) }
    ensures numbered { IfOk result (AreTables groups.now labels.new.keys store.now.tables (length store.now.tables)) }
{
    let mut tables = Seq::empty(alloc);
    for (place, table) in store.tables.as_slice().iter().enumerate() {
        let id = TableId {
            index: place as u32,
        };
        tables.push(column_numbers(alloc, groups, id, table, labels)?)?;
    }
    Ok(tables)
}

// The numbers of all columns of a table.
fn column_numbers(
    alloc: Global,
    groups: &Groups,
    id: TableId,
    table: &Table,
    labels: &mut IndexSet<Label>,
) -> Result<Seq<GroupId>, Memory>
    ensures grown { IfOk result (λ _. Grows labels.old.keys labels.new.keys) }
    ensures numbered { IfOk result (AreNumbered labels.new.keys (λ i. label_of groups.now (col id (record { index = i }))) (length table.now.cols)) }
{
    let mut numbers = Seq::empty(alloc);
    for place in 0..table.cols.len() {
        let column = ColId {
            index: place as u32,
        };
        numbers.push(noted(labels, column_label(groups, id, column))?)?;
    }
    Ok(numbers)
}
