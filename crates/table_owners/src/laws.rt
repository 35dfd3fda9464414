ghost use Rattle.std.specs.Prelude.{◌↔◌, Bool, Contains, List};
ghost use Rattle.round_trip.specs.Words.{Assoc, AssocId, At, LinkFragment, Schema};
ghost use Rattle.round_trip.specs.FailsAt.{IsHostedAt};
ghost use Rattle.round_trip.specs.soundness.mappings.Mappings.{IsSoundSchema};
ghost use Rattle.table_owners.specs.declared.places.LinkPlace.{LinkPlace};
ghost use Rattle.table_owners.specs.Places.{AreHosted, AreToldHosted, TellPlaces};

/// In a sound schema the links of a fragment are hosted at one end at most.
pub fn a_link_is_hosted_at_one_end()
    ensures one_end { (schema : Schema) (fragment : LinkFragment) → IsSoundSchema schema → Contains schema.mapping.links fragment
        → IsHostedAt schema fragment.table fragment.first → ¬ IsHostedAt schema fragment.table fragment.second }
{}

/// In a sound schema just those links are told as hosted at an end whose fragment writes this end's key to a whole primary key.
pub fn hosted_links_are_told()
    ensures ends { (schema : Schema) → IsSoundSchema schema → (places : List LinkPlace) → TellPlaces schema places → (a : AssocId) (assoc : Assoc)
        → At schema.model.assocs a.index assoc → (first_hosts : Bool) → AreToldHosted places a first_hosts ↔ AreHosted schema a first_hosts }
{}
