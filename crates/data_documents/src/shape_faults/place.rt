ghost use Rattle.std.specs.Prelude.{◌≡◌, ◌∷◌, [], IfOk, map};
ghost use Rattle.json_form.specs.declared.pointer.Step.{Step};
ghost use Rattle.data_documents.specs.shape_faults.Places.{plain_step, pointer_of_place};

use emc_base::{Memory, Txt};
use json_form::{Step, pointer_of};
use std::alloc::Global;
use std::marker::Model;

/// A step from a node of a document to a part of it, or to where a part of it is missing.
#[derive(Drop)]
pub enum ShapeStep {
    /// To the member of this name.
    Member(Txt),
    /// To the item at this place, counted from 0.
    Item(u32),
    /// To where a member is missing: its rank among those that there should be, and its name.
    Missing(u32, Txt),
}

/// A place in a document: the steps that lead to it, from the root or from the node that is looked at.
#[derive(Drop)]
pub struct ShapePlace {
    steps: Vec<ShapeStep>,
}

impl Model for ShapePlace {
    ghost use Rattle.std.specs.Prelude.{List};
    ghost use Rattle.data_documents.specs.declared.shape_faults.place.ShapeStep.{ShapeStep};
    ghost use Rattle.std.specs.Coded.{coded_list};
    ghost use Rattle.data_documents.specs.contracts.shape_faults.place.ShapeStep as step;

    ghost Value = { List ShapeStep };

    ghost coded = { coded_list step.the_row.coded };

    ghost view = { λ p. p.steps.items };
}

impl ShapePlace {
    /// The place of the node itself. It takes no memory.
    pub fn here(alloc: Global) -> ShapePlace
        ensures { result ≡ [] }
    {
        ShapePlace {
            steps: Vec::new(alloc),
        }
    }

    /// The same place, seen from the node that this step leads from.
    pub fn after(self, step: ShapeStep) -> Result<ShapePlace, Memory>
        ensures { IfOk result (λ place. place ≡ step ∷ self) }
    {
        let mut steps = self.steps;
        steps.insert(0, step)?;
        Ok(ShapePlace { steps })
    }

    /// The steps, the first one first.
    pub fn as_slice(&self) -> &[ShapeStep]
        ensures { result.now ≡ self.now }
    {
        self.steps.as_slice()
    }

    /// The JSON pointer (RFC 6901) of the place. A missing member has the place at which it would stand.
    pub fn pointer(&self, alloc: Global) -> Result<Txt, Memory>
        ensures { IfOk result (λ text. text ≡ pointer_of_place self.now) }
    {
        let mut steps = Vec::new(alloc);
        for step in self.as_slice() {
            steps.push(plain_step(alloc, step)?)?;
        }
        pointer_of(alloc, steps.as_slice())
    }
}

// The step as it is spelled.
fn plain_step(alloc: Global, step: &ShapeStep) -> Result<Step, Memory>
    ensures { IfOk result (λ plain. plain ≡ plain_step step.now) }
{
    match step {
        ShapeStep::Member(name) | ShapeStep::Missing(_, name) => {
            let name = name.copy(alloc)?;
            Ok(Step::Member(name))
        }
        ShapeStep::Item(place) => Ok(Step::Item(*place)),
    }
}
