//! Links: those of an association with a table of its own fail at its rows; an association that is hosted and lets an entity have any number of partners
//! clashes; and one that nothing maps leaves states with the same tables.

ghost use Rattle.std.specs.Prelude.{◌≡◌, ◌↔◌, ◌≤◌, ℕ, Bool, not};
ghost use Rattle.edm_types.specs.declared.model.Mult.TheVariants.{Many};
ghost use Rattle.round_trip.specs.Words.{Assoc, AssocId, At, EntityModel, IsIndependent};
ghost use Rattle.round_trip.specs.declared.FailKind.{FailKind};
ghost use Rattle.cells.specs.Limits.{IsWithinLimits};
ghost use Rattle.population.specs.Given.{HasNumbers};
ghost use Rattle.population.specs.LinkStates.{DifferInLink, HoldsLink, HoldsTwoLinks};
ghost use Rattle.population.specs.Numbered.{end_of};
ghost use Rattle.regions.specs.Basis.{Basis};
ghost use Rattle.regions.specs.region_laws.IsBasis.{IsBasis};
ghost use Rattle.region_states.specs.conflicts.Conflicts.{IsLinkConflictAt};
ghost use Rattle.region_states.specs.conflicts.There.{LinksFailThere, NoneFailsBefore};
ghost use Rattle.region_states.specs.declared.conflicts.conflict.Conflict.{Conflict};
ghost use Rattle.failure_laws.specs.SmallLinks.{small_link, small_pair, small_shared};

/// What the entities at the ends of an independent association need holds its link, two links of one entity, or the link in one of two states alone, as the
/// whole states do.
pub fn small_links_serve()
    ensures one { (model : EntityModel) (outer : ℕ) → HasNumbers model outer → (a : AssocId) (assoc : Assoc) → At model.assocs a.index assoc → IsIndependent assoc
        → HoldsLink model outer a assoc (small_link model outer a assoc) }
    ensures two { (model : EntityModel) (outer : ℕ) → HasNumbers model outer → (a : AssocId) (assoc : Assoc) → At model.assocs a.index assoc → IsIndependent assoc
        → (first : Bool) → (end_of (not first) assoc).mult ≡ Many → HoldsTwoLinks model outer a first assoc (small_shared model outer a assoc first) }
    ensures differ { (model : EntityModel) (outer : ℕ) → HasNumbers model outer → (a : AssocId) (assoc : Assoc) → At model.assocs a.index assoc → IsIndependent assoc
        → DifferInLink model outer a assoc (small_pair model outer a assoc).0 (small_pair model outer a assoc).1 }
{}

/// Where no legal state fails by a kind that is told before this one, there is a conflict of the kind at an association's links exactly where some legal
/// state fails by it there.
pub fn link_conflicts_are_exact()
    ensures exact { (basis : Basis) → IsBasis basis → IsWithinLimits basis.schema → (kind : FailKind) → NoneFailsBefore basis.schema kind → (a : AssocId)
        → ((conflict : Conflict) × IsLinkConflictAt basis a kind conflict) ↔ LinksFailThere basis a kind }
{}
