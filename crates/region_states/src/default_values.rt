//! Values that exist: each atom of a property has one, and each region has values that an entity in it may have, with keys that are numbered.

ghost use Rattle.std.specs.Prelude.{◌<◌, ◌≡◌, ◌≢◌, ◌≤◌, ℕ, Bool, Contains, IsTrue, Option};
ghost use Rattle.round_trip.specs.Words.{At, InDomain, Kind, Null, Prop, PropId, SetId, TypeId, Value, key_props};
ghost use Rattle.emc_base.specs.declared.value.Kind.TheVariants as kind;
ghost use Rattle.round_trip.specs.soundness.mappings.Joined.{IsDependent, IsNoKey, Joined, prop};
ghost use Rattle.round_trip.specs.soundness.Kinds.{IsEnum, IsKeyKind};
ghost use Rattle.condition_logic.specs.declared.atoms.Atom.{Atom};
ghost use Rattle.member_groups.specs.Tested.{AreInOneGroup};
ghost use Rattle.cells.specs.Limits.{IsWithinLimits};
ghost use Rattle.regions.specs.Atoms.{Allows, LiesIn, atoms_of};
ghost use Rattle.regions.specs.Basis.{Basis};
ghost use Rattle.regions.specs.Patterns.{Valuation};
ghost use Rattle.regions.specs.Regions.{regions_of};
ghost use Rattle.regions.specs.declared.region.Region.{Region};
ghost use Rattle.regions.specs.region_laws.IsBasis.{IsBasis};
ghost use Rattle.regions.specs.region_laws.pattern.Allowed.{RegionValues};
ghost use Rattle.region_states.specs.defaults.Admissible.{AreChoices, AreTwoChoices, DifferAt, HasNumberedKey, IsAdmissible, IsChoice, SeveralOf};
ghost use Rattle.region_states.specs.defaults.Candidates.{AreGrouped, AreTwoFree, first_free, next_free};
ghost use Rattle.schema_laws.specs.short_values.Numbers.{number};
ghost use Rattle.region_states.specs.defaults.Defaults.{alone, changed, default_valuation, one_value, other_value};
ghost use Rattle.schema_laws.specs.short_values.Fresh.{IsUse, Use, focus_key, fresh, index_of, most_indices};
ghost use Rattle.schema_laws.specs.short_values.Short.{IsOfSort, IsShort, TakesShort};

/// A short value of the right sort lies in the domain of each property that is joined to a dependent one.
pub fn joined_values_fit()
    ensures joined { (basis : Basis) → IsBasis basis → (p q : PropId) → IsDependent basis.schema.model p → Joined basis.schema (prop p) (prop q)
        → TakesShort basis.schema.model q }
{}

/// Of a property that is neither a flag nor of an enumeration two candidates lie in the domain and are no constants of its group.
pub fn some_candidates_are_left()
    ensures left { (basis : Basis) → IsBasis basis → IsWithinLimits basis.schema → (p : PropId) (declared : Prop) → At basis.schema.model.props p.index declared
        → declared.kind ≢ kind.Boolean → ¬ IsEnum declared.kind
        → AreTwoFree declared.kind (basis.constants (prop p)) (first_free declared.kind (basis.constants (prop p))) (next_free declared.kind (basis.constants (prop p))) }
{}

/// A property that isn't tested and is no part of a key has two different values.
pub fn untested_properties_have_two_values()
    ensures two { (basis : Basis) → IsBasis basis → (p : PropId) (declared : Prop) → At basis.schema.model.props p.index declared
        → IsNoKey basis.schema (prop p) → ¬ IsTrue (basis.tested (prop p))
        → AreTwoFree declared.kind (basis.constants (prop p)) (first_free declared.kind (basis.constants (prop p))) (next_free declared.kind (basis.constants (prop p))) }
{}

/// Properties of one group that are of no enumeration have the same free values, whatever their bounds.
pub fn groups_share_free_values()
    ensures first { (basis : Basis) → IsBasis basis → (p q : PropId) (declared other : Prop) → AreGrouped basis p q declared other
        → first_free declared.kind (basis.constants (prop p)) ≡ first_free other.kind (basis.constants (prop q)) }
    ensures next { (basis : Basis) → IsBasis basis → (p q : PropId) (declared other : Prop) → AreGrouped basis p q declared other
        → next_free declared.kind (basis.constants (prop p)) ≡ next_free other.kind (basis.constants (prop q)) }
{}

/// Each atom of a property has a value that the property may hold.
pub fn each_atom_has_a_value()
    ensures value { (basis : Basis) → IsBasis basis → IsWithinLimits basis.schema → (p : PropId) (declared : Prop) → At basis.schema.model.props p.index declared
        → (atom : Atom) → Contains (atoms_of basis.fits declared (basis.constants (prop p))) atom
        → (value : Value) × Allows declared value × LiesIn (basis.constants (prop p)) atom value }
{}

/// The values that an entity of a region has where nothing else is said are admissible, with the numbers of any of the five rows; and the parts of its key
/// are the first of the row.
pub fn each_region_has_values()
    ensures values { (basis : Basis) → IsBasis basis → IsWithinLimits basis.schema → (s : SetId) (region : Region) → Contains (regions_of basis s) region
        → (outer : ℕ) → outer ≤ 4 → IsAdmissible basis outer region (default_valuation basis outer region) }
    ensures keys { (basis : Basis) → IsBasis basis → (region : Region) (outer : ℕ) → HasNumberedKey basis outer region (default_valuation basis outer region) }
{}

/// What a property that may have several values may be, whatever the other values are: null if it is nullable, each value that is no constant, and
/// where it or a property joined to it is dependent each short value.
pub fn choices_are_told()
    ensures null { (basis : Basis) → IsBasis basis → (of : SeveralOf basis) → IsTrue of.nullable → IsChoice basis of.region of.p Null }
    ensures free { (basis : Basis) → IsBasis basis → (of : SeveralOf basis) (value : Value) → InDomain value of.declared.kind
        → ¬ Contains (basis.constants (prop of.p)) value → (IsDependent basis.schema.model of.p → IsShort value) → IsChoice basis of.region of.p value }
    ensures short { (basis : Basis) → IsBasis basis → (of : SeveralOf basis) (q : PropId) → IsDependent basis.schema.model q
        → AreInOneGroup basis.schema (prop q) (prop of.p) → (value : Value) → IsShort value → IsOfSort of.declared.kind value
        → IsChoice basis of.region of.p value }
{}

/// A property that may have several values has two that aren't null, whatever the other values are; one value is changed alone, or several together;
/// and a numbered key stays as it is.
pub fn properties_can_differ()
    ensures choices { (basis : Basis) → IsBasis basis → (of : SeveralOf basis) → IsWithinLimits basis.schema
        → AreTwoChoices basis of.region of.p (one_value basis of.p of.declared) (other_value basis of.p of.declared) }
    ensures alone { (basis : Basis) → IsBasis basis → (outer : ℕ) (at : RegionValues basis) → IsAdmissible basis outer at.region at.values
        → (p : PropId) (one two : Value) → AreTwoChoices basis at.region p one two
        → IsAdmissible basis outer at.region (changed at.values (alone p one)) × IsAdmissible basis outer at.region (changed at.values (alone p two))
        × DifferAt at.values (changed at.values (alone p one)) (changed at.values (alone p two)) p }
    ensures together { (basis : Basis) → IsBasis basis → (outer : ℕ) (at : RegionValues basis) → IsAdmissible basis outer at.region at.values
        → (changes : PropId → Option Value) → AreChoices basis at.region changes → IsAdmissible basis outer at.region (changed at.values changes) }
    ensures keys { (basis : Basis) (outer : ℕ) (region : Region) (values : Valuation) → HasNumberedKey basis outer region values
        → (changes : PropId → Option Value) → AreChoices basis region changes → HasNumberedKey basis outer region (changed values changes) }
{}
