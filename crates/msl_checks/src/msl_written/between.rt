ghost use Rattle.std.specs.Prelude.{ℕ};
ghost use Rattle.emc_base.specs.Lists.{AreApart, At};
ghost use Rattle.round_trip.specs.Words.{EntityType};
ghost use Rattle.round_trip.specs.Between.{schema_of};
ghost use Rattle.msl_checks.specs.barred_members.Told.{TellsBarred};

use crate::barred_members::Barred;
use edm_types::Mapping;
use schema_names::SchemaNames;

/// A model, a store, and the mapping between them that a document means, with what is looked up there.
#[derive(Clone, Copy)]
pub struct Between<'a> {
    /// The names of the entity model and of the store.
    pub names: &'a SchemaNames<'a>,
    /// The mapping.
    pub mapping: &'a Mapping,
    /// What is barred by it.
    pub barred: &'a Barred,
    ghost told: { ∥ TellsBarred (schema_of names.now.model.now names.now.store.now mapping.now) barred.now ∥₁ },
    ghost apart: { (t : ℕ) (type : EntityType) → At names.now.model.now.types t type → AreApart type.key },
}
