ghost use Rattle.std.specs.Prelude.{◌≡◌, IfOk};
ghost use Rattle.round_trip.specs.Words.{EntityModel, Mapping};
ghost use Rattle.round_trip.specs.soundness.mappings.Joined.{Member, prop, col};
ghost use Rattle.round_trip.specs.Between.{schema_of};
ghost use Rattle.msl_checks.specs.barred_members.Told.{TellsBarred, is_told};
ghost use Rattle.msl_checks.specs.barred_members.Added.{Adds, AddsAll, Each, IsProp, IsColumn, Constrains, HostsAt, Hosts};

use edm_types::{Assoc, EntityModel, LinkFragment, Mapping, Pair, StoreModel};
use emc_base::{ColId, Memory, PropId, TableId};
use member_groups::joined_groups::Groups;
use member_groups::{Label, column_label, prop_label};
use std::alloc::Global;
use std::collections::BTreeSet;
use table_owners::is_hosted;

/// The barred properties and columns of a mapping: those that tell another entity, and those that are joined to one that does.
#[derive(Drop)]
pub struct Barred {
    groups: Groups,
    // What those that tell another entity are known by.
    labels: BTreeSet<Label>,
}

impl Barred {
    /// Those of a mapping between a model and a store. `Memory` comes where memory ran out.
    pub fn of(
        alloc: Global,
        model: &EntityModel,
        store: &StoreModel,
        mapping: &Mapping,
    ) -> Result<Barred, Memory>
        ensures { IfOk result (TellsBarred (schema_of model.now store.now mapping.now)) }
    {
        let mut barred = Barred {
            groups: Groups::of(alloc, model, store, mapping.fragments.as_slice())?,
            labels: BTreeSet::new(alloc),
        };
        match barred.add_all(model, store, mapping) {
            Ok(()) => Ok(barred),
            Err(memory) => {
                drop(barred);
                Err(memory)
            }
        }
    }

    // Adds what is barred: the dependent properties, and then the columns to which partners' keys are written.
    fn add_all(
        &mut self,
        model: &EntityModel,
        store: &StoreModel,
        mapping: &Mapping,
    ) -> Result<(), Memory>
        ensures { IfOk result (λ _. AddsAll (schema_of model.now store.now mapping.now) self.old self.new) }
    {
        self.add_dependents(model.assocs.as_slice())?;
        self.add_partners(store, mapping.links.as_slice())
    }

    /// Whether a property is barred.
    pub fn has_prop(&self, property: PropId) -> bool
        ensures { result ≡ is_told self.now (prop property) }
    {
        self.labels.contains(&prop_label(&self.groups, property))
    }

    /// Whether a column of a table is barred.
    pub fn has_column(&self, table: TableId, column: ColId) -> bool
        ensures { result ≡ is_told self.now (col table column) }
    {
        self.labels
            .contains(&column_label(&self.groups, table, column))
    }

    // Adds the dependent properties of these associations.
    fn add_dependents(&mut self, assocs: &[Assoc]) -> Result<(), Memory>
        ensures { IfOk result (λ _. Adds (Each Constrains assocs.now) self.old self.new) }
    {
        for assoc in assocs {
            self.add_constrained(assoc)?;
        }
        Ok(())
    }

    // Adds the dependent properties of an association, if it has a constraint.
    fn add_constrained(&mut self, assoc: &Assoc) -> Result<(), Memory>
        ensures { IfOk result (λ _. Adds (Constrains assoc.now) self.old self.new) }
    {
        match &assoc.constraint {
            Some(constraint) => self.add_props(constraint.dependent.as_slice()),
            None => Ok(()),
        }
    }

    // Adds these properties.
    fn add_props(&mut self, properties: &[PropId]) -> Result<(), Memory>
        ensures { IfOk result (λ _. Adds (Each IsProp properties.now) self.old self.new) }
    {
        for property in properties {
            self.labels.insert(prop_label(&self.groups, *property))?;
        }
        Ok(())
    }

    // Adds the columns to which these link fragments write partners' keys.
    fn add_partners(&mut self, store: &StoreModel, links: &[LinkFragment]) -> Result<(), Memory>
        ensures { IfOk result (λ _. (model : EntityModel) (mapping : Mapping) → Adds (Each (Hosts (schema_of model store.now mapping)) links.now) self.old self.new) }
    {
        for fragment in links {
            self.add_hosted(store, fragment)?;
        }
        Ok(())
    }

    // Adds the columns to which a link fragment writes partners' keys: at either end at which it is hosted, those of the
    // other.
    fn add_hosted(&mut self, store: &StoreModel, fragment: &LinkFragment) -> Result<(), Memory>
        ensures { IfOk result (λ _. (model : EntityModel) (mapping : Mapping) → Adds (Hosts (schema_of model store.now mapping) fragment.now) self.old self.new) }
    {
        let first = fragment.first.as_slice();
        let second = fragment.second.as_slice();
        self.add_partner(store, fragment.table, first, second)?;
        self.add_partner(store, fragment.table, second, first)
    }

    // Adds the columns of the partner's pairs, if the links are hosted at an end by its own pairs.
    fn add_partner(
        &mut self,
        store: &StoreModel,
        table: TableId,
        own: &[Pair],
        partner: &[Pair],
    ) -> Result<(), Memory>
        ensures { IfOk result (λ _. (model : EntityModel) (mapping : Mapping) → Adds (HostsAt (schema_of model store.now mapping) table own.now partner.now) self.old self.new) }
    {
        if is_hosted(store, table, own) {
            self.add_columns(table, partner)
        } else {
            Ok(())
        }
    }

    // Adds the columns of these pairs.
    fn add_columns(&mut self, table: TableId, pairs: &[Pair]) -> Result<(), Memory>
        ensures { IfOk result (λ _. Adds (Each (IsColumn table) pairs.now) self.old self.new) }
    {
        for pair in pairs {
            let label = column_label(&self.groups, table, pair.col);
            self.labels.insert(label)?;
        }
        Ok(())
    }
}
