ghost use Rattle.std.specs.Prelude.{◌≡◌, ◌↔◌, ◌∷◌, [], Contains, List, None};
ghost use Rattle.round_trip.specs.Words.{PropId};
ghost use Rattle.round_trip.specs.soundness.models.Models.{IsSoundModel};
ghost use Rattle.regions.specs.Basis.{Basis};
ghost use Rattle.cells.specs.Limits.{IsWithinLimits};
ghost use Rattle.regions.specs.declared.pattern.Focus.{Focus};
ghost use Rattle.regions.specs.declared.pattern.Focus.TheVariants as focus;
ghost use Rattle.regions.specs.region_laws.IsBasis.{IsBasis};
ghost use Rattle.regions.specs.region_laws.Held.{LinkedEntity, StandingLink};
ghost use Rattle.forced_entities.specs.Forced.{IsForced, own_member};
ghost use Rattle.forced_entities.specs.Examples.{basis_on, employees, forced_in, lines, own, p, region_of};
ghost use Rattle.forced_entities.specs.Listed.{forced_by};
ghost use Rattle.forced_entities.specs.Held.{HasNoNull, HoldsForced, values_at, values_at_link};
ghost use Rattle.forced_entities.specs.declared.member.Forced.{Forced};

/// The law that no legal state lacks a forced entity: where a legal state of a sound model holds an entity that a region holds with its partners, and none of
/// some properties is null in it, the state holds that entity, told by its own
/// properties, and each one that the region forces with these; and with a link each that the link forces.
pub fn no_legal_state_lacks_a_forced_entity()
    ensures own { (basis : Basis) → IsSoundModel basis.schema.model → (at : LinkedEntity basis) → HoldsForced basis at.state (values_at basis at) (own_member basis at.region) }
    ensures entities { (basis : Basis) → IsSoundModel basis.schema.model → (at : LinkedEntity basis) (not_null : List PropId) → HasNoNull basis not_null at.entity
        → (one : Forced) → IsForced basis (focus.Entity at.region) not_null one → HoldsForced basis at.state (values_at basis at) one }
    ensures links { (basis : Basis) → IsSoundModel basis.schema.model → (at : StandingLink basis) (not_null : List PropId)
        → (one : Forced) → IsForced basis (focus.Link at.a) not_null one → HoldsForced basis at.state (values_at_link basis at) one }
{}

/// The law that what is forced is a list: what the focus forces by itself, and what that leads to in as many steps as there are sets, holds just what is
/// forced, of each basis whose schema is within the limits.
pub fn forced_entities_are_listed()
    ensures { (basis : Basis) → IsBasis basis → IsWithinLimits basis.schema → (of : Focus) (not_null : List PropId) (one : Forced)
        → Contains (forced_by basis of not_null) one ↔ IsForced basis of not_null one }
{}

/// What is forced in small models: of a line its order, the order's customer, of whom the account alone is known, and this account; of an employee the
/// manager, where the manager's number isn't null, and nobody where it may be.
pub fn forced_entities_of_small_models()
    ensures lines { forced_by (basis_on lines) (focus.Entity (region_of 0)) []
        ≡ forced_in 1 (own 0 ∷ own 1 ∷ []) ∷ forced_in 2 (own 0 ∷ None ∷ []) ∷ forced_in 3 (own 0 ∷ []) ∷ [] }
    ensures managed { forced_by (basis_on employees) (focus.Entity (region_of 0)) (p 2 ∷ []) ≡ forced_in 0 (own 0 ∷ own 2 ∷ []) ∷ [] }
    ensures alone { forced_by (basis_on employees) (focus.Entity (region_of 0)) [] ≡ [] }
{}
