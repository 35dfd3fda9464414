ghost use Rattle.std.specs.Prelude.{◌≡◌, ℕ, length, IfOk};
ghost use Rattle.json_form.specs.Documents.{tree_of};
ghost use Rattle.json_form.specs.Nodes.{part_of};
ghost use Rattle.groupings.specs.least_fault.Least.{IsLeast};
ghost use Rattle.layouts.specs.Faults.{fault_cmp};
ghost use Rattle.graphs.specs.base_chains.Chains.{base_at, IsAncestor};
ghost use Rattle.graphs.specs.base_chains.Walks.{IsBasesFirst};
ghost use Rattle.csdl_names.specs.csdl_lists.Raw.{raw_model};
ghost use Rattle.csdl_names.specs.csdl_lists.References.{base_of, names_in};
ghost use Rattle.csdl_names.specs.csdl_lists.Scopes.{IsScopeOf};
ghost use Rattle.csdl_meaning.specs.ModelMeaning.{meaning};
ghost use Rattle.csdl_model.specs.ModelFaults.{BreaksAssociationRules, IsFaultAfterNames, IsFaultAfterReferences, IsListFault, IsModelFault};
ghost use Rattle.csdl_model.specs.ReadsModel.{ReadsModel};
ghost use Rattle.layouts.specs.told_rules.Reads.{Reads};

use crate::csdl_sound::a_document_that_breaks_no_rule_is_sound;
use csdl_associations::{Sides, first_constraint_fault, first_set_fault};
use csdl_meaning::make_model;
use csdl_names::{Lookups, RawModel, Scope, bases_of, first_repeated, first_unresolved, props_of};
use csdl_types::first_type_fault;
use edm_types::{EntityModel, VocabFault, VocabFile};
use emc_base::Memory;
use graphs::{Walk, chain_roots, walk_bases};
use groupings::earlier_of;
use json_form::{Doc, FromNode};
use layouts::{Fault, Form, Shape, Stop, first_fault, told};
use std::alloc::Global;

/// Reads a CSDL document: `Ok` with the model that it means, which is sound, where it breaks no rule; else `Rule` with the least rule that it
/// breaks, at its first place. `Memory` comes where memory ran out, and where types stand too deep, inherit too much, or take too many steps
/// to be looked up.
pub fn read_csdl(alloc: Global, doc: &Doc) -> Result<EntityModel, VocabFault>
    ensures { ReadsModel (tree_of doc.now) result }
{
    a_document_that_breaks_no_rule_is_sound();
    match read_document(alloc, doc) {
        Ok(model) => Ok(model),
        Err(Stop::Fault(fault)) => Err(told(alloc, VocabFile::Csdl, fault)),
        Err(Stop::Memory) => Err(VocabFault::Memory),
    }
}

// Its layout first, whose rules have the least numbers.
fn read_document(alloc: Global, doc: &Doc) -> Result<EntityModel, Stop>
    ensures { Reads (IsModelFault (tree_of doc.now)) (meaning (raw_model (tree_of doc.now))) result }
{
    match first_fault(alloc, Form::Object(Shape::Model), doc.root())? {
        Some(fault) => Err(Stop::Fault(fault)),
        None => {
            let model = RawModel::read(alloc, doc.root())?;
            let made = read_lists(alloc, &model);
            drop(model);
            made
        }
    }
}

// The rules on what is written, by what the names stand for.
fn read_lists(alloc: Global, model: &RawModel) -> Result<EntityModel, Stop>
    ensures { Reads (IsListFault model.now) (meaning model.now) result }
{
    let scope = Scope::of(alloc, model)?;
    read_by_scope(alloc, model, &scope)
}

// The same, where it is known what the names stand for.
fn read_by_scope(alloc: Global, model: &RawModel, scope: &Scope) -> Result<EntityModel, Stop>
    requires { IsScopeOf model.now scope.now }
    ensures { Reads (IsListFault model.now) (meaning model.now) result }
{
    let bases = bases_of(alloc, model, scope)?;
    let props = props_of(alloc, &model.types)?;
    let lookups = Lookups {
        model,
        scope,
        props: &props,
        bases: &bases,
    };
    read_names(alloc, &lookups)
}

// On names that are given twice, and then the others.
fn read_names(alloc: Global, lookups: &Lookups<'_>) -> Result<EntityModel, Stop>
    requires { IsScopeOf lookups.now.model.now lookups.now.scope.now }
    ensures { Reads (IsListFault lookups.now.model.now) (meaning lookups.now.model.now) result }
{
    match first_repeated(alloc, lookups)? {
        Some(fault) => Err(Stop::Fault(fault)),
        None => read_references(alloc, lookups),
    }
}

// On names that resolve to nothing, and then the others.
fn read_references(alloc: Global, lookups: &Lookups<'_>) -> Result<EntityModel, Stop>
    requires { IsScopeOf lookups.now.model.now lookups.now.scope.now }
    ensures { Reads (IsFaultAfterNames lookups.now.model.now) (meaning lookups.now.model.now) result }
{
    match first_unresolved(alloc, lookups)? {
        Some(fault) => Err(Stop::Fault(fault)),
        None => read_types(alloc, lookups),
    }
}

// On types, and then the others.
fn read_types(alloc: Global, lookups: &Lookups<'_>) -> Result<EntityModel, Stop>
    requires { IsScopeOf lookups.now.model.now lookups.now.scope.now }
    ensures { Reads (IsFaultAfterReferences lookups.now.model.now) (meaning lookups.now.model.now) result }
{
    match first_type_fault(alloc, lookups.model, lookups.scope)? {
        Some(fault) => Err(Stop::Fault(fault)),
        None => read_associations(alloc, lookups),
    }
}

// On associations and sets, where no type is its own ancestor; and then the model.
fn read_associations(alloc: Global, lookups: &Lookups<'_>) -> Result<EntityModel, Stop>
    requires { (i : ℕ) → ¬ IsAncestor (base_of (names_in lookups.now.model.now) lookups.now.model.now) i i }
    ensures { Reads (BreaksAssociationRules lookups.now.model.now) (meaning lookups.now.model.now) result }
{
    let order = bases_first(alloc, lookups)?;
    read_in_order(alloc, lookups, order.as_slice())
}

// The same, in an order of the types in which each follows its base.
fn read_in_order(alloc: Global, lookups: &Lookups<'_>, order: &[usize]) -> Result<EntityModel, Stop>
    requires { IsBasesFirst (base_at lookups.now.bases.now) (length lookups.now.bases.now) order.now }
    ensures { Reads (BreaksAssociationRules lookups.now.model.now) (meaning lookups.now.model.now) result }
{
    match first_association_fault(alloc, lookups, order)? {
        Some(fault) => Err(Stop::Fault(fault)),
        None => Ok(make_model(alloc, lookups, order)?),
    }
}

// The places of the types, each after its base.
fn bases_first(alloc: Global, lookups: &Lookups<'_>) -> Result<Vec<usize>, Memory>
    requires { (i : ℕ) → ¬ IsAncestor (base_of (names_in lookups.now.model.now) lookups.now.model.now) i i }
    ensures { IfOk result (λ order. IsBasesFirst (base_at lookups.now.bases.now) (length lookups.now.bases.now) order.items) }
{
    match walk_bases(alloc, lookups.bases.as_slice())? {
        Walk::Order(order) => Ok(order),
        Walk::Cycle(_) => unreachable!(),
    }
}

// The least fault of associations and sets.
fn first_association_fault(
    alloc: Global,
    lookups: &Lookups<'_>,
    order: &[usize],
) -> Result<Option<Fault>, Memory>
    requires { IsBasesFirst (base_at lookups.now.bases.now) (length lookups.now.bases.now) order.now }
    ensures { IfOk result (λ found. IsLeast fault_cmp (BreaksAssociationRules lookups.now.model.now) found) }
{
    let roots = chain_roots(alloc, lookups.bases.as_slice(), order)?;
    let sides = Sides {
        lookups,
        roots: roots.as_slice(),
    };
    let constraint = first_constraint_fault(alloc, &sides);
    let set = first_set_fault(alloc, &sides, order);
    earlier_of(constraint, set)
}
