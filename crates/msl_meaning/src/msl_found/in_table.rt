ghost use Rattle.std.specs.Prelude.{◌≡◌, IfOk, option_map, slice_get};
ghost use Rattle.msl_rules.specs.Found.{col_numbered, on_in, pair_in, pairs_in};
ghost use Rattle.schema_names.specs.SchemaNames.{column_named};
ghost use Rattle.msl_meaning.specs.msl_found.NamedAt.{named_at};

use edm_types::{CondOn, Pair, Table};
use emc_base::{ColId, Memory, PropId, Seq, Txt, put_found};
use msl_rules::{RawCond, RawPair};
use schema_names::SchemaNames;
use std::alloc::Global;

/// A table, and the type whose properties are named, where there is one.
#[derive(Clone, Copy)]
pub struct InTable<'a> {
    /// The names of the entity model and of the store.
    pub names: &'a SchemaNames<'a>,
    /// The place of the type.
    pub ty: Option<usize>,
    /// The place of the table.
    pub table: usize,
}

impl<'a> InTable<'a> {
    /// The property of a name, which is looked for at the type's property of this number first.
    pub fn prop(&self, name: &Txt, near: usize) -> Option<PropId>
        ensures { result ≡ named_at self.now.names.now.model.now self.now.ty name.now }
    {
        self.names.prop_near(self.ty?, name.as_str(), near)
    }

    /// The column of a name, which is looked for at the table's column of this number first.
    pub fn col(&self, name: &Txt, near: usize) -> Option<ColId>
        ensures { result ≡ option_map col_numbered (column_named self.now.names.now.store.now self.now.table name.now) }
    {
        let place = self.names.column_near(self.table, name.as_str(), near)?;
        col_at(self.names.store.tables.get(self.table)?, place)
    }

    /// A property and the column that it is written to, where both are found. They are looked for at the property and the column of this number
    /// first.
    pub fn pair(&self, pair: &RawPair, near: usize) -> Option<Pair>
        ensures { result ≡ pair_in self.now.names.now.model.now self.now.names.now.store.now (named_at self.now.names.now.model.now self.now.ty) self.now.table pair.now }
    {
        let prop = self.prop(&pair.prop, near)?;
        let col = self.col(&pair.col, near)?;
        Some(Pair { prop, col })
    }

    /// The pairs of a list of which both are found, in their order. `Memory` comes where memory ran out.
    pub fn pairs(&self, alloc: Global, pairs: &Seq<RawPair>) -> Result<Seq<Pair>, Memory>
        ensures { IfOk result (λ found. found ≡ pairs_in self.now.names.now.model.now self.now.names.now.store.now (named_at self.now.names.now.model.now self.now.ty) self.now.table pairs.now) }
    {
        let mut found = Seq::empty(alloc);
        for pair in pairs.as_slice() {
            let near = found.len();
            put_found(&mut found, self.pair(pair, near))?;
        }
        Ok(found)
    }

    /// What a condition is on: the property, or the column, where it names just one of these.
    pub fn condition_on(&self, cond: &RawCond) -> Option<CondOn>
        ensures { result ≡ on_in self.now.names.now.model.now self.now.names.now.store.now (named_at self.now.names.now.model.now self.now.ty) self.now.table cond.now }
    {
        match (&cond.prop, &cond.col) {
            (Some(name), None) => Some(CondOn::Prop(self.prop(name, 0)?)),
            (None, Some(name)) => Some(CondOn::Col(self.col(name, 0)?)),
            _ => None,
        }
    }
}

// The column at a place of a table, where it has one there.
fn col_at(table: &Table, place: usize) -> Option<ColId>
    ensures { result ≡ option_map (λ col. col_numbered place) (slice_get table.now.cols place) }
{
    if place >= table.cols.len() {
        return None;
    }
    Some(ColId {
        index: place as u32,
    })
}
