//! Conditions as expressions on types, properties and columns, and the atoms that tell the values of tested properties apart.
#![tactic(auto)]

mod asking;
mod atoms;
mod expr;
mod holding;
mod laws;
mod making;
mod reading;
mod selecting;

pub use atoms::{Atom, AtomOf};
pub use expr::Expr;
pub use holding::{holds_atoms, holds_entity, holds_row};
pub use laws::{
    expressions_mean_their_parts, expressions_name_by_their_parts,
    shown_rows_are_those_of_fragments,
};
pub use selecting::{select_expr, show_expr};
