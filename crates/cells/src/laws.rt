ghost use Rattle.std.specs.Prelude.{◌↔◌, Contains, List};
ghost use Rattle.cells.specs.declared.parts.Parts.{Parts};
ghost use Rattle.cells.specs.Parts.{AreParts, CoverModel, CoverStore};
ghost use Rattle.round_trip.specs.Words.{Hosted, Schema, SetId, State, Value};
ghost use Rattle.round_trip.specs.soundness.mappings.Mappings.{IsSoundSchema};
ghost use Rattle.cells.specs.declared.cells.Cells.{Cells};
ghost use Rattle.cells.specs.Cells.{TellsCells};
ghost use Rattle.cells.specs.HostedLinks.{IsHostedLink, hosted_links};

/// The links that `hosted_links` answers by the cells of a sound schema are just those that its fragments of links let the entity host.
pub fn hosted_links_are_those_of_the_mapping()
    ensures each { (schema : Schema) → IsSoundSchema schema → (cells : Cells) → TellsCells schema cells → (state : State) (set : SetId) (key : List Value)
        (hosted : Hosted) → Contains (hosted_links schema.model cells state set key) hosted ↔ IsHostedLink schema state set key hosted }
{}

/// Sound parts within the limits meet the conditions of calls that take cells without their mapping.
pub fn parts_cover_their_model_and_store()
    ensures model { (parts : Parts) → AreParts parts → CoverModel parts.model.now parts.cells.now }
    ensures store { (parts : Parts) → AreParts parts → CoverStore parts.store.now parts.cells.now }
{}
