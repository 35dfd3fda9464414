//! States with links of an independent association, whatever its multiplicities and however it is mapped.

ghost use Rattle.std.specs.Prelude.{◌≡◌, ℕ, Bool, not};
ghost use Rattle.edm_types.specs.declared.model.Mult.TheVariants.{Many};
ghost use Rattle.round_trip.specs.Words.{Assoc, AssocId, At, EntityModel, IsIndependent};
ghost use Rattle.population.specs.Given.{HasNumbers};
ghost use Rattle.population.specs.LinkStates.{DifferInLink, HoldsLink, HoldsTwoLinks, link_state, two_links_state, unlinked_state};
ghost use Rattle.population.specs.Numbered.{end_of};

/// Of each independent association a legal state holds a link; one holds two links of one entity, where the other end is `*`; and two legal states differ in
/// its links alone.
pub fn links_can_stand()
    ensures one { (model : EntityModel) (outer : ℕ) → HasNumbers model outer → (a : AssocId) (assoc : Assoc) → At model.assocs a.index assoc → IsIndependent assoc
        → HoldsLink model outer a assoc (link_state model outer a assoc) }
    ensures two { (model : EntityModel) (outer : ℕ) → HasNumbers model outer → (a : AssocId) (assoc : Assoc) → At model.assocs a.index assoc → IsIndependent assoc
        → (first : Bool) → (end_of (not first) assoc).mult ≡ Many → HoldsTwoLinks model outer a first assoc (two_links_state model outer a first assoc) }
    ensures differ { (model : EntityModel) (outer : ℕ) → HasNumbers model outer → (a : AssocId) (assoc : Assoc) → At model.assocs a.index assoc → IsIndependent assoc
        → DifferInLink model outer a assoc (link_state model outer a assoc) (unlinked_state model outer a assoc) }
{}
