ghost use Rattle.std.specs.Prelude.{IfOk};
ghost use Rattle.condition_logic.specs.Selecting.{SaysSelected, SaysShown};

use crate::expr::Expr;
use crate::making::{Side, both, column_exprs, cond_exprs, pick_exprs};
use edm_types::{Cond, Fragment};
use emc_base::{ColId, Memory, Seq};
use std::alloc::Global;

/// The type picks and the property conditions of a fragment as an expression, which says which entities the fragment selects. The time is
/// linear in these. `Memory` comes where memory ran out.
pub fn select_expr(alloc: Global, fragment: &Fragment) -> Result<Expr, Memory>
    ensures { IfOk result (SaysSelected fragment.now) }
{
    let picks = pick_exprs(alloc, fragment.picks.as_slice())?;
    let conds = cond_exprs(alloc, fragment.conds.as_slice(), Side::Props)?;
    both(alloc, Expr::Any(picks), Expr::All(conds))
}

/// The column conditions among these, and that these columns aren't null, as an expression on rows. The time is linear in both. `Memory` comes
/// where memory ran out.
pub fn show_expr(alloc: Global, conds: &Seq<Cond>, not_null: &Seq<ColId>) -> Result<Expr, Memory>
    ensures { IfOk result (SaysShown conds.now not_null.now) }
{
    let conds = cond_exprs(alloc, conds.as_slice(), Side::Cols)?;
    let cols = column_exprs(alloc, not_null.as_slice())?;
    both(alloc, Expr::All(conds), Expr::All(cols))
}
