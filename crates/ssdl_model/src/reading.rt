ghost use Rattle.std.specs.Prelude.{◌≡◌, IfOk};
ghost use Rattle.json_form.specs.Documents.{tree_of};
ghost use Rattle.groupings.specs.least_fault.Least.{IsLeast};
ghost use Rattle.layouts.specs.Faults.{fault_cmp};
ghost use Rattle.csdl_names.specs.csdl_lists.Scopes.{IsScopeOf};
ghost use Rattle.ssdl_model.specs.ssdl_lists.RawStore.{IsUnbased, raw_store};
ghost use Rattle.ssdl_model.specs.ssdl_making.StoreMeaning.{store_meaning};
ghost use Rattle.layouts.specs.told_rules.Reads.{Reads};
ghost use Rattle.ssdl_model.specs.ReadsStore.{ReadsStore};
ghost use Rattle.ssdl_model.specs.StoreFaults.{IsFaultAfterNames, IsGivenTwice, IsStoreFault, IsStoreListFault, NamesNothing};
ghost use Rattle.ssdl_model.specs.ssdl_rules.StoreRules.{BreaksStoreRules};

use crate::roots::roots_of;
use crate::ssdl_lists::{read_store, tables_of};
use crate::ssdl_making::make_store;
use crate::ssdl_rules::{Owners, first_endless, first_shared, first_store_fault};
use crate::ssdl_sound::a_store_that_breaks_no_rule_is_sound;
use csdl_associations::Sides;
use csdl_names::{Lookups, RawModel, Scope, bases_of, first_repeated, first_unresolved, props_of};
use edm_types::{StoreModel, VocabFault, VocabFile};
use emc_base::Memory;
use groupings::earlier;
use json_form::Doc;
use layouts::{Fault, Form, Shape, Stop, first_fault, told};
use std::alloc::Global;

/// Reads an SSDL document: `Ok` with the store that it means, which is sound, where it breaks no rule; else `Rule` with the least rule that it
/// breaks, at its first place. `Memory` comes where memory ran out, and where keys and constraints name so many columns that their look-ups
/// may take very many steps.
pub fn read_ssdl(alloc: Global, doc: &Doc) -> Result<StoreModel, VocabFault>
    ensures { ReadsStore (tree_of doc.now) result }
{
    a_store_that_breaks_no_rule_is_sound();
    match read_document(alloc, doc) {
        Ok(store) => Ok(store),
        Err(Stop::Fault(fault)) => Err(told(alloc, VocabFile::Ssdl, fault)),
        Err(Stop::Memory) => Err(VocabFault::Memory),
    }
}

// Its layout first, whose rules have the least numbers.
fn read_document(alloc: Global, doc: &Doc) -> Result<StoreModel, Stop>
    ensures { Reads (IsStoreFault (tree_of doc.now)) (store_meaning (raw_store (tree_of doc.now))) result }
{
    match first_fault(alloc, Form::Object(Shape::Store), doc.root())? {
        Some(fault) => Err(Stop::Fault(fault)),
        None => {
            let store = read_store(alloc, doc.root())?;
            let made = read_lists(alloc, &store);
            drop(store);
            made
        }
    }
}

// The rules on what is written, by what the names stand for.
fn read_lists(alloc: Global, store: &RawModel) -> Result<StoreModel, Stop>
    requires { IsUnbased store.now }
    ensures { Reads (IsStoreListFault store.now) (store_meaning store.now) result }
{
    let scope = Scope::of(alloc, store)?;
    read_by_scope(alloc, store, &scope)
}

// The same, where it is known what the names stand for.
fn read_by_scope(alloc: Global, store: &RawModel, scope: &Scope) -> Result<StoreModel, Stop>
    requires scope { IsScopeOf store.now scope.now }
    requires unbased { IsUnbased store.now }
    ensures { Reads (IsStoreListFault store.now) (store_meaning store.now) result }
{
    let bases = bases_of(alloc, store, scope)?;
    let props = props_of(alloc, &store.types)?;
    let lookups = Lookups {
        model: store,
        scope,
        props: &props,
        bases: &bases,
    };
    read_names(alloc, &lookups)
}

// On names that are given twice, and then the others.
fn read_names(alloc: Global, lookups: &Lookups<'_>) -> Result<StoreModel, Stop>
    requires scope { IsScopeOf lookups.now.model.now lookups.now.scope.now }
    requires unbased { IsUnbased lookups.now.model.now }
    ensures { Reads (IsStoreListFault lookups.now.model.now) (store_meaning lookups.now.model.now) result }
{
    let tables = tables_of(alloc, lookups)?;
    let owners = Owners {
        lookups,
        tables: &tables,
    };
    match first_given_twice(alloc, &owners)? {
        Some(fault) => Err(Stop::Fault(fault)),
        None => read_references(alloc, &owners),
    }
}

// The least of the names that are given twice, and of the tables that share a type.
fn first_given_twice(alloc: Global, owners: &Owners<'_>) -> Result<Option<Fault>, Memory>
    requires { IsScopeOf owners.now.lookups.now.model.now owners.now.lookups.now.scope.now }
    ensures { IfOk result (λ found. IsLeast fault_cmp (IsGivenTwice owners.now.lookups.now.model.now) found) }
{
    let lookups = owners.lookups;
    let repeated = first_repeated(alloc, lookups)?;
    let shared = first_shared(alloc, owners)?;
    Ok(earlier(repeated, shared))
}

// On names that resolve to nothing, and then the others.
fn read_references(alloc: Global, owners: &Owners<'_>) -> Result<StoreModel, Stop>
    requires { IsUnbased owners.now.lookups.now.model.now }
    ensures { Reads (IsFaultAfterNames owners.now.lookups.now.model.now) (store_meaning owners.now.lookups.now.model.now) result }
{
    match first_nameless(alloc, owners)? {
        Some(fault) => Err(Stop::Fault(fault)),
        None => read_tables(alloc, owners),
    }
}

// The least of the names that resolve to nothing, and of the ends that lead to no table.
fn first_nameless(alloc: Global, owners: &Owners<'_>) -> Result<Option<Fault>, Memory>
    ensures { IfOk result (λ found. IsLeast fault_cmp (NamesNothing owners.now.lookups.now.model.now) found) }
{
    let unresolved = first_unresolved(alloc, owners.lookups)?;
    let endless = first_endless(alloc, owners)?;
    Ok(earlier(unresolved, endless))
}

// On tables and foreign keys; and then the store.
fn read_tables(alloc: Global, owners: &Owners<'_>) -> Result<StoreModel, Stop>
    requires { IsUnbased owners.now.lookups.now.model.now }
    ensures { Reads (BreaksStoreRules owners.now.lookups.now.model.now) (store_meaning owners.now.lookups.now.model.now) result }
{
    let lookups = owners.lookups;
    let roots = roots_of(alloc, lookups.model)?;
    let sides = Sides {
        lookups,
        roots: &roots,
    };
    match first_store_fault(alloc, &sides)? {
        Some(fault) => Err(Stop::Fault(fault)),
        None => Ok(make_store(alloc, lookups, owners.tables)?),
    }
}
