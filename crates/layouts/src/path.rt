ghost use Rattle.std.specs.Prelude.{◌≡◌, ◌∷◌, [], IfOk};

use emc_base::Memory;
use json_form::Step;
use std::alloc::Global;
use std::marker::Model;

/// A place in a document: the steps that lead to it, from the root or from the node that is looked at.
#[derive(Drop)]
pub struct Path {
    steps: Vec<Step>,
}

impl Model for Path {
    ghost use Rattle.std.specs.Prelude.{List};
    ghost use Rattle.json_form.specs.declared.pointer.Step.{Step};
    ghost use Rattle.std.specs.Coded.{coded_list};
    ghost use Rattle.json_form.specs.contracts.pointer.Step as step;

    ghost Value = { List Step };

    ghost coded = { coded_list step.the_row.coded };

    ghost view = { λ p. p.steps.items };
}

impl Path {
    /// The place of the node itself. It takes no memory.
    pub fn here(alloc: Global) -> Path
        ensures { result ≡ [] }
    {
        Path {
            steps: Vec::new(alloc),
        }
    }

    /// The place that is reached by this step first.
    pub fn after(self, step: Step) -> Result<Path, Memory>
        ensures { IfOk result (λ path. path ≡ step ∷ self) }
    {
        let mut steps = self.steps;
        steps.insert(0, step)?;
        Ok(Path { steps })
    }

    /// The steps, the first one first.
    pub fn as_slice(&self) -> &[Step]
        ensures { result.now ≡ self.now }
    {
        self.steps.as_slice()
    }
}
