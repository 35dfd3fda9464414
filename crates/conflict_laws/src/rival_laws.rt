//! Rivals: some values write entities of two regions alike just where their cells match one by one, and then there are such values with the usual keys.

ghost use Rattle.std.specs.Prelude.{◌≡◌, Contains, IsTrue};
ghost use Rattle.round_trip.specs.Words.{SetId};
ghost use Rattle.cells.specs.Limits.{IsWithinLimits};
ghost use Rattle.regions.specs.Basis.{Basis};
ghost use Rattle.regions.specs.Patterns.{Valuation};
ghost use Rattle.regions.specs.declared.region.Region.{Region};
ghost use Rattle.regions.specs.region_laws.IsBasis.{IsBasis};
ghost use Rattle.regions.specs.region_laws.pattern.Allowed.{IsAllowed};
ghost use Rattle.region_states.specs.defaults.Admissible.{IsAdmissible};
ghost use Rattle.region_states.specs.conflicts.SameFacts.{same_region};
ghost use Rattle.conflict_laws.specs.rival.Alike.{AreComparable, AreWrittenAlike, HaveOneKey, PatternsMatch, AreTwins};
ghost use Rattle.conflict_laws.specs.rival.RivalValues.{first_values, second_values};

/// Where values that two regions allow, with one key and the same partners, write entities of both alike, the cells of their patterns match one by one.
pub fn alike_patterns_match()
    ensures cells { (basis : Basis) → IsBasis basis → (s : SetId) (one two : Region) (values others : Valuation) → AreTwins basis s one two values others
        → PatternsMatch basis one two }
{}

/// Where the cells match one by one, these admissible values write entities of both regions alike. Of each group of properties one value serves.
pub fn matching_patterns_are_alike()
    ensures admissible { (basis : Basis) → IsBasis basis → (s : SetId) (one two : Region) → AreComparable basis s one two → IsWithinLimits basis.schema
        → PatternsMatch basis one two → IsAdmissible basis 0 one (first_values basis one two) × IsAdmissible basis 0 two (second_values basis one two) }
    ensures key { (basis : Basis) → IsBasis basis → (s : SetId) (one two : Region) → AreComparable basis s one two
        → HaveOneKey basis one (first_values basis one two) (second_values basis one two) }
    ensures alike { (basis : Basis) → IsBasis basis → IsWithinLimits basis.schema → (s : SetId) (one two : Region) → AreComparable basis s one two
        → PatternsMatch basis one two → AreWrittenAlike basis one two (first_values basis one two) (second_values basis one two) }
{}

/// Whether two regions of a set are one is computed.
pub fn regions_are_told_apart()
    ensures same { (one two : Region) → one.set ≡ two.set → IsTrue (same_region one two) → one ≡ two }
    ensures one { (region : Region) → IsTrue (same_region region region) }
{}
