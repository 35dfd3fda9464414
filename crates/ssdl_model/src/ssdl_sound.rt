//! That what an SSDL document means is a sound store where it breaks no rule.

ghost use Rattle.std.specs.Prelude.{◌≡◌};
ghost use Rattle.csdl_names.specs.declared.csdl_lists.raw.RawModel.{RawModel};
ghost use Rattle.round_trip.specs.soundness.Stores.{IsSoundStore};
ghost use Rattle.ssdl_model.specs.ssdl_making.StoreMeaning.{store_meaning};
ghost use Rattle.ssdl_model.specs.ssdl_sound.Shelves.{shelf_store, shelves};
ghost use Rattle.ssdl_model.specs.ssdl_sound.SoundStore.{KeepsStoreRules};

/// What a document means that breaks no rule is a sound store.
pub fn a_store_that_breaks_no_rule_is_sound()
    ensures sound { (raw : RawModel) → KeepsStoreRules raw → IsSoundStore (store_meaning raw) }
{}

/// What a small document means: two tables, whose types stand in another order, and a foreign key over two columns, in another order than
/// the key's. It breaks none of the rules.
pub fn shelves_are_meant()
    ensures meant { store_meaning shelves ≡ shelf_store }
    ensures keeps { KeepsStoreRules shelves }
{}
