//! The model that a CSDL document means, made from its lists.

mod associations;
mod forest;
mod ids;
mod kinds;
mod lists;
mod model;
mod props;
mod sets;
mod sizes;
mod types;

pub use kinds::simple_kind;
pub use model::make_model;
