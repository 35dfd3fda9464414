ghost use Rattle.std.specs.Prelude.{◌≡◌, ◌↔◌, ◌∷◌, [], IfOk, IsTrue};
ghost use Rattle.condition_logic.specs.declared.expr.Expr.TheVariants as expr;
ghost use Rattle.condition_logic.specs.Made.{AreOf, IsOfColumn, IsOfCond, IsOfPick, IsOfTest, IsOnSide};

use crate::expr::Expr;
use edm_types::{Cond, CondOn, Pick, Test};
use emc_base::{ColId, Memory, Seq};
use std::alloc::Global;

/// What the conditions are on that an expression is made of.
#[derive(Clone, Copy, Debug, PartialEq, Eq)]
pub enum Side {
    /// On properties.
    Props,
    /// On columns.
    Cols,
}

/// That both hold. `Memory` comes where memory ran out.
pub fn both(alloc: Global, one: Expr, two: Expr) -> Result<Expr, Memory>
    ensures { IfOk result (λ made. made ≡ expr.All (one ∷ two ∷ [])) }
{
    let mut parts = Seq::empty(alloc);
    parts.push(one)?;
    parts.push(two)?;
    Ok(Expr::All(parts))
}

/// The expressions of type picks. `Memory` comes where memory ran out.
pub fn pick_exprs(alloc: Global, picks: &[Pick]) -> Result<Seq<Expr>, Memory>
    ensures { IfOk result (AreOf IsOfPick (λ pick. ⊥) picks.now) }
{
    let mut exprs = Seq::empty(alloc);
    for pick in picks {
        exprs.push(pick_expr(pick))?;
    }
    Ok(exprs)
}

// That the type is picked.
fn pick_expr(pick: &Pick) -> Expr
    ensures { IsOfPick pick.now result }
{
    if pick.below {
        Expr::IsOf(pick.ty)
    } else {
        Expr::OnlyOf(pick.ty)
    }
}

/// The expressions of the conditions on one side. `Memory` comes where memory ran out.
pub fn cond_exprs(alloc: Global, conds: &[Cond], side: Side) -> Result<Seq<Expr>, Memory>
    ensures { IfOk result (AreOf (IsOfCond side) (λ cond. ¬ IsOnSide side cond.on) conds.now) }
{
    let mut exprs = Seq::empty(alloc);
    for cond in conds {
        if !is_on(side, cond.on) {
            continue;
        }
        exprs.push(test_expr(alloc, cond.on, &cond.test)?)?;
    }
    Ok(exprs)
}

// Whether a condition is on this side.
fn is_on(side: Side, on: CondOn) -> bool
    ensures { IsTrue result ↔ IsOnSide side on }
{
    match on {
        CondOn::Prop(_) => side == Side::Props,
        CondOn::Col(_) => side == Side::Cols,
    }
}

/// The expressions that columns aren't null. `Memory` comes where memory ran out.
pub fn column_exprs(alloc: Global, cols: &[ColId]) -> Result<Seq<Expr>, Memory>
    ensures { IfOk result (AreOf IsOfColumn (λ col. ⊥) cols.now) }
{
    let mut exprs = Seq::empty(alloc);
    for col in cols {
        exprs.push(column_expr(alloc, col)?)?;
    }
    Ok(exprs)
}

// That the column isn't null.
fn column_expr(alloc: Global, col: &ColId) -> Result<Expr, Memory>
    ensures { IfOk result (IsOfColumn col.now) }
{
    test_expr(alloc, CondOn::Col(*col), &Test::IsNull(false))
}

// That the test passes.
fn test_expr(alloc: Global, on: CondOn, test: &Test) -> Result<Expr, Memory>
    ensures { IfOk result (IsOfTest on test.now) }
{
    match test {
        Test::IsNull(true) => Ok(Expr::IsNull(on)),
        Test::IsNull(false) => Ok(Expr::Not(Box::new(alloc, Expr::IsNull(on))?)),
        Test::Equals(constant) => Ok(Expr::Equals(on, constant.copy(alloc)?)),
    }
}
