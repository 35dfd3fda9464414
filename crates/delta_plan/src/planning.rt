ghost use Rattle.std.specs.Prelude.{◌*◌, IfOk, length};
ghost use Rattle.delta_plan.specs.Planning.{AsksOnce, CanBePlanned, IsPlanOfAsked, LeadsToKept, TellsSteps};
ghost use Rattle.row_plans.specs.Plans.{AreKeyed};
ghost use Rattle.delta_plan.specs.RowsOf.{giving};
ghost use Rattle.delta_plan.specs.Steps.{RoseAtMost};

use crate::asking::touched_tables;
use crate::keeping::{held_rows, kept_rows};
use cells::Cells;
use edm_types::{EntityModel, StoreModel};
use emc_base::{Ledger, Memory, Seq};
use entity_changes::Touched;
use entity_state::EntityState;
use row_changes::RowChange;
use row_plans::{RowPlan, plan_rows};
use std::alloc::Global;
use table_files::{LocalRows, Tables};

/// Why changes of rows aren't planned.
#[derive(Drop)]
pub enum PlanFault {
    /// No order keeps all keys: each of these changes has to come before the next, and the last before the first.
    Circular(Seq<RowChange>),
    /// Memory ran out.
    Memory,
}

impl From<Memory> for PlanFault {
    ghost use Rattle.std.specs.Prelude.{◌≡◌};
    ghost use Rattle.delta_plan.specs.declared.planning.PlanFault.TheVariants as fault;

    ghost from_gives = { λ _ given. given ≡ fault.Memory };

    fn from(_memory: Memory) -> PlanFault {
        PlanFault::Memory
    }
}

/// The changes of rows that lead from the tables of a state to those of another, which differs from it only at what is touched, with free columns kept; in an
/// order in which each prefix keeps all keys. The views are asked at touched keys alone: once in each state that has an entity there, and each call of `local`
/// counts one step.
///
/// `Circular` comes exactly where there is no such order. `Memory` comes where memory ran out.
pub fn plan<R: LocalRows, L: Ledger>(
    alloc: Global,
    model: &EntityModel,
    store: &StoreModel,
    cells: &Cells,
    tables: &Tables,
    touched: &Touched,
    before: &EntityState,
    after: &EntityState,
    views: &R,
    steps: &mut L,
) -> Result<Seq<RowChange>, PlanFault>
    requires { CanBePlanned (giving (R.rows views.now) (R.joined_row views.now)) model.now store.now cells.now tables.now touched.now before.now after.now }
    ensures leads { TellsSteps (LeadsToKept (giving (R.rows views.now) (R.joined_row views.now)) model.now store.now cells.now tables.now touched.now before.now after.now) result }
    ensures exact { TellsSteps (AsksOnce model.now touched.now before.now after.now (L.count steps.old) (L.count steps.new)) result }
    ensures most { RoseAtMost (2 * length touched.now.entities) (L.count steps.old) (L.count steps.new) }
{
    let asked = touched_tables(alloc, model, store, cells, touched, before, views, steps)?;
    let wanted = touched_tables(alloc, model, store, cells, touched, after, views, steps)?;
    let steps_or_ring = plan_of_asked(alloc, store, cells, tables, &asked, &wanted)?;
    match steps_or_ring {
        RowPlan::Steps(changes) => Ok(changes),
        RowPlan::Circular(ring) => Err(PlanFault::Circular(ring)),
    }
}

// The plan for the rows that the views gave for what is touched, before and afterwards.
fn plan_of_asked(
    alloc: Global,
    store: &StoreModel,
    cells: &Cells,
    tables: &Tables,
    asked: &Tables,
    wanted: &Tables,
) -> Result<RowPlan, Memory>
    requires asked { AreKeyed store.now tables.now asked.now }
    requires wanted { AreKeyed store.now tables.now wanted.now }
    ensures { IfOk result (IsPlanOfAsked store.now cells.now tables.now asked.now wanted.now) }
{
    let old = held_rows(alloc, store, tables, asked)?;
    let new = kept_rows(alloc, store, cells, &old, wanted)?;
    plan_rows(alloc, store, &old, &new)
}
