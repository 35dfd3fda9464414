//! Values that lie in the domain of each part of a key and of each dependent property, whatever its bound; and numbered ones among them, all different.

ghost use Rattle.std.specs.Prelude.{◌<◌, ◌≡◌, ◌≤◌, ℕ, Contains};
ghost use Rattle.emc_base.specs.declared.value.Kind.TheVariants as kind;
ghost use Rattle.round_trip.specs.Words.{EntityModel, Kind, PropId, TypeId, key_props};
ghost use Rattle.round_trip.specs.soundness.Kinds.{IsKeyKind};
ghost use Rattle.round_trip.specs.soundness.mappings.Joined.{IsDependent};
ghost use Rattle.round_trip.specs.soundness.models.Models.{IsSoundModel};
ghost use Rattle.schema_laws.specs.short_values.Fresh.{IsUse, Use, focus_key, fresh, index_of, most_indices};
ghost use Rattle.schema_laws.specs.short_values.Numbers.{number};
ghost use Rattle.schema_laws.specs.short_values.Short.{IsOfSort, IsShort, TakesShort};

/// A short value of the right sort lies in the domain of each part of a key and of each dependent property.
pub fn short_values_fit()
    ensures keys { (model : EntityModel) → IsSoundModel model → (t : TypeId) (p : PropId) → Contains (key_props model t) p → TakesShort model p }
    ensures dependent { (model : EntityModel) → IsSoundModel model → (p : PropId) → IsDependent model p → TakesShort model p }
{}

/// Numbered values of different indices are different, and all are short; a key that is shown begins with small ones. No index is for two things.
pub fn fresh_values_are_different()
    ensures values { (kind : Kind) (outer other i j : ℕ) → outer ≤ 4 → other ≤ 4 → fresh kind outer i ≡ fresh kind other j → (outer ≡ other) × (i ≡ j) }
    ensures short { (kind : Kind) (outer i : ℕ) → outer ≤ 4 → i < most_indices → IsShort (fresh kind outer i) }
    ensures sort { (kind : Kind) → IsKeyKind kind → (outer i : ℕ) → IsOfSort kind (fresh kind outer i) }
    ensures shown { (fresh kind.Int32 0 (focus_key 0) ≡ number 7) × (fresh kind.Int32 0 (focus_key 1) ≡ number 12)
        × (fresh kind.Int32 0 (focus_key 2) ≡ number 17) × (fresh kind.Int32 0 (focus_key 3) ≡ number 22) }
    ensures below { (one : Use) → IsUse one → index_of one < most_indices }
    ensures indices { (one other : Use) → IsUse one → IsUse other → index_of one ≡ index_of other → one ≡ other }
{}
