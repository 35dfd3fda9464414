ghost use Rattle.std.specs.Prelude.{◌↔◌, ℕ, Contains, List};
ghost use Rattle.round_trip.specs.Words.{AssocId, Assoc, FailsAt, ForeignKey, Place, PropId, RoundTrips, State};
ghost use Rattle.round_trip.specs.declared.FailKind.TheVariants as kind;
ghost use Rattle.regions.specs.Basis.{Basis};
ghost use Rattle.regions.specs.declared.pattern.Focus.{Focus};
ghost use Rattle.regions.specs.declared.pattern.Focus.TheVariants as focus;
ghost use Rattle.regions.specs.declared.region.Region.{Region};
ghost use Rattle.dangling_keys.specs.Dangling.{IsDangling, IsRowFocus};
ghost use Rattle.dangling_keys.specs.Failing.{FailsByKey};
ghost use Rattle.dangling_keys.specs.Laws.{Dangles, HasNoClash, HasNoConflicts, HasPlace, HoldsEntity, HoldsLinkOf, IsEntityOf, IsLinkOf, IsShownToFail, IsSoundBasis, IsToldOf, LeavesOutAt, ShowsApart};
ghost use Rattle.dangling_keys.specs.Showing.{MayRefer};
ghost use Rattle.dangling_keys.specs.declared.key.DanglingKey.{DanglingKey};

/// The law that dangling keys are decided: where no legal state clashes, some legal state has a row that refers by a foreign key and finds none, exactly where
/// the key dangles at a region, or at the links of an association with a table of its own (`decided`). For each row that fails, its key is told at some focus
/// (`told`); of each dangling key that is told, the small state that is shown fails by it, at each place that names the row of the focus that is told (`fails`),
/// and there is such a place (`placed`). There is no condition on the constraints of the model or on other keys.
pub fn dangling_keys_are_decided()
    ensures decided { (basis : Basis) → HasNoClash basis → (key : ForeignKey) → Contains basis.schema.store.keys key → FailsByKey basis key ↔ Dangles basis key }
    ensures told { (basis : Basis) → HasNoClash basis → (place : Place) (c d : State) → (fails : FailsAt basis.schema kind.Dangling place c d) → IsToldOf basis fails.fails.key }
    ensures fails { (basis : Basis) → HasNoClash basis → (told : DanglingKey) (dangling : IsDangling basis told) → IsShownToFail basis told dangling }
    ensures placed { (basis : Basis) → HasNoClash basis → (told : DanglingKey) (dangling : IsDangling basis told) → HasPlace basis told dangling }
{}

/// The law that a mapping round-trips exactly where nothing is told of it: no conflict at any set or at the links of any association, and no key that dangles.
/// There is no condition on the constraints of the model or on the foreign keys of the store.
pub fn a_mapping_round_trips_by_its_conflicts()
    ensures { (basis : Basis) → IsSoundBasis basis → HasNoConflicts basis ↔ RoundTrips basis.schema }
{}

/// The law that what isn't forced can be left out: of each focus there is a legal state that holds it, by any of five rows of numbers, in which given
/// properties aren't null, each of which may be null or not; and in this state an entity whose key is told by symbols, each of which stands for a part of a key, stands exactly where
/// just this key is that of the focus or is forced (`LeavesUnforcedOut`). Each other entity there has the key of a number, or one that is read off a forced entity, whose unknown parts are
/// those of number zero, which no symbol for a part of a key has; and no key of the state has a part outside of the row of numbers (`SetsApart`). For each foreign key there is such a row
/// outside of which is all that the focus shows by the key and that is no part of a key (`shown`), whatever property or constant it comes from.
pub fn what_is_not_forced_is_left_out()
    ensures entities { (basis : Basis) → IsSoundBasis basis → (outer : ℕ) (region : Region) (not_null : List PropId) → IsEntityOf basis outer region not_null → LeavesOutAt basis outer (focus.Entity region) not_null }
    ensures focus { (basis : Basis) → IsSoundBasis basis → (outer : ℕ) (region : Region) (not_null : List PropId) → IsEntityOf basis outer region not_null → HoldsEntity basis outer region not_null }
    ensures links { (basis : Basis) → IsSoundBasis basis → (outer : ℕ) (a : AssocId) (assoc : Assoc) → IsLinkOf basis outer a assoc → (not_null : List PropId) → LeavesOutAt basis outer (focus.Link a) not_null }
    ensures link { (basis : Basis) → IsSoundBasis basis → (outer : ℕ) (a : AssocId) (assoc : Assoc) → IsLinkOf basis outer a assoc → (not_null : List PropId) → HoldsLinkOf basis outer a assoc not_null }
    ensures shown { (basis : Basis) → IsSoundBasis basis → (key : ForeignKey) → Contains basis.schema.store.keys key → (of : Focus) → IsRowFocus basis of → MayRefer basis of key → ShowsApart basis of key }
{}
