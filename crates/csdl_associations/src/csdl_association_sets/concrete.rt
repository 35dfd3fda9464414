ghost use Rattle.std.specs.Prelude.{◌≡◌, ◌↔◌, length, true, not, map, IfOk, IsTrue};
ghost use Rattle.emc_base.specs.Lists.{At};
ghost use Rattle.groupings.specs.least_fault.Least.{IsLeast};
ghost use Rattle.layouts.specs.Faults.{fault_cmp};
ghost use Rattle.graphs.specs.base_chains.Chains.{base_at};
ghost use Rattle.graphs.specs.base_chains.Walks.{IsBasesFirst};
ghost use Rattle.csdl_names.specs.csdl_lists.References.{names_in};
ghost use Rattle.csdl_associations.specs.csdl_association_sets.Concrete.{LacksConcrete};
ghost use Rattle.csdl_associations.specs.csdl_association_sets.Told.{BreaksEnds, TellsConcrete};

use crate::csdl_constraints::named_associations;
use csdl_names::{Lookups, RawAssociation, RawEnd, RawSet, RawType};
use emc_base::{Memory, Seq, Txt};
use graphs::marked_below;
use groupings::Finder;
use layouts::{Fault, Rule, fault_if, first_at};
use std::alloc::Global;
use std::marker::Model;

/// The types of a model, and of each whether there may be entities of it. Contracts see the model.
#[derive(Drop)]
pub struct ConcreteTypes<'a> {
    lookups: &'a Lookups<'a>,
    // Of each type whether it, or one below it, isn't abstract.
    told: Vec<bool>,
}

impl<'a> Model for ConcreteTypes<'a> {
    ghost use Rattle.csdl_names.specs.declared.csdl_lists.raw.RawModel.{RawModel};
    ghost use Rattle.csdl_associations.specs.csdl_association_sets.Told.{TellsConcrete};

    ghost Value = { RawModel };

    ghost view = { λ s. s.lookups.now.model.now };

    ghost invariant = { λ s. TellsConcrete s.lookups.now.model.now s.told.items };
}

impl<'a> ConcreteTypes<'a> {
    /// The types of a model, by an order in which each follows its base.
    pub fn of(
        alloc: Global,
        lookups: &'a Lookups<'a>,
        order: &[usize],
    ) -> Result<ConcreteTypes<'a>, Memory>
        requires order { IsBasesFirst (base_at lookups.now.bases.now) (length lookups.now.bases.now) order.now }
        ensures { IfOk result (λ types. types ≡ lookups.now.model.now) }
    {
        let told = concrete_types(alloc, lookups, order)?;
        Ok(ConcreteTypes { lookups, told })
    }

    // Whether a type is found by this name, and there may be no entity of it.
    fn is_lacking(&self, reference: &Txt) -> bool
        ensures { IsTrue result ↔ LacksConcrete (names_in self.now) self.now ((names_in self.now).type_named reference.now) }
    {
        let Some(ty) = self.lookups.type_named(reference) else {
            return false;
        };
        !is_told(self.told.as_slice(), ty)
    }
}

/// V14 of an entity set: its element type.
impl<'a> Finder<RawSet, Fault> for ConcreteTypes<'a> {
    ghost use Rattle.csdl_associations.specs.csdl_association_sets.Concrete.{IsElementFault};

    ghost wrong = { λ model. IsElementFault (names_in model) model };

    fn find(&self, alloc: Global, _: usize, item: &RawSet) -> Result<Option<Fault>, Memory> {
        let is_lacking = self.is_lacking(&item.element);
        let found = fault_if(alloc, is_lacking, Rule::ConcreteType, "EntityType")?;
        Ok(found)
    }
}

/// V14 of an end: its type.
impl<'a> Finder<RawEnd, Fault> for ConcreteTypes<'a> {
    ghost use Rattle.csdl_associations.specs.csdl_association_sets.Concrete.{IsEndTypeFault};

    ghost wrong = { λ model. IsEndTypeFault (names_in model) model };

    fn find(&self, alloc: Global, _: usize, item: &RawEnd) -> Result<Option<Fault>, Memory> {
        let found = fault_if(alloc, self.is_lacking(&item.ty), Rule::ConcreteType, "Type")?;
        Ok(found)
    }
}

/// The associations of a model, and of each whether some association set names it. Contracts see the model.
#[derive(Drop)]
struct NamedEnds<'a> {
    types: &'a ConcreteTypes<'a>,
    told: Vec<bool>,
}

impl<'a> Model for NamedEnds<'a> {
    ghost use Rattle.csdl_names.specs.declared.csdl_lists.raw.RawModel.{RawModel};
    ghost use Rattle.csdl_names.specs.csdl_lists.References.{names_in};
    ghost use Rattle.csdl_associations.specs.csdl_constraints.Marks.{AreMarks};
    ghost use Rattle.csdl_associations.specs.csdl_constraints.Sides.{IsNamed};
    ghost use Rattle.std.specs.Prelude.{length};

    ghost Value = { RawModel };

    ghost view = { λ s. s.types.now };

    ghost invariant = { λ s. AreMarks (IsNamed (names_in s.types.now) s.types.now) (length s.types.now.associations) s.told.items };
}

/// V14 of an association that some association set names: the types of its ends.
impl<'a> Finder<RawAssociation, Fault> for NamedEnds<'a> {
    ghost use Rattle.csdl_associations.specs.csdl_association_sets.Concrete.{IsEndsFault};

    ghost wrong = { λ model. IsEndsFault (names_in model) model };

    fn find(
        &self,
        alloc: Global,
        place: usize,
        item: &RawAssociation,
    ) -> Result<Option<Fault>, Memory> {
        if !is_told(self.told.as_slice(), place) {
            return Ok(None);
        }
        let found = first_at(alloc, "End", self.types, &item.ends)?;
        Ok(found)
    }
}

// Whether something is told of a place.
fn is_told(told: &[bool], place: usize) -> bool
    ensures { IsTrue result ↔ At told.now place true }
{
    matches!(told.get(place), Some(true))
}

// Of each type whether it, or one below it, isn't abstract.
fn concrete_types(
    alloc: Global,
    lookups: &Lookups<'_>,
    order: &[usize],
) -> Result<Vec<bool>, Memory>
    requires order { IsBasesFirst (base_at lookups.now.bases.now) (length lookups.now.bases.now) order.now }
    ensures { IfOk result (λ told. TellsConcrete lookups.now.model.now told.items) }
{
    let marks = concrete_marks(alloc, &lookups.model.types)?;
    let told = marked_below(alloc, lookups.bases.as_slice(), order, marks.as_slice())?;
    Ok(told)
}

// Of each type whether it isn't abstract.
fn concrete_marks(alloc: Global, types: &Seq<RawType>) -> Result<Vec<bool>, Memory>
    ensures { IfOk result (λ marks. marks.items ≡ map (λ type. not type.is_abstract) types.now) }
{
    let mut marks = Vec::new(alloc);
    for ty in types.as_slice() {
        marks.push(!ty.is_abstract)?;
    }
    Ok(marks)
}

/// The least fault of the types at the ends of associations that some association set names.
pub fn first_end_type_fault(
    alloc: Global,
    lookups: &Lookups<'_>,
    types: &ConcreteTypes<'_>,
) -> Result<Option<Fault>, Memory>
    requires { types.now ≡ lookups.now.model.now }
    ensures { IfOk result (λ found. IsLeast fault_cmp (BreaksEnds lookups.now.model.now) found) }
{
    let told = named_associations(alloc, lookups)?;
    let search = NamedEnds { types, told };
    let found = first_at(alloc, "Association", &search, &lookups.model.associations)?;
    Ok(found)
}
