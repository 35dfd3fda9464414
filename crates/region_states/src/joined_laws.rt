//! Cells tell just those links as joined that have a table of their own, and the pattern of such an association is one row.

ghost use Rattle.std.specs.Prelude.{◌≡◌, ◌∷◌, []};
ghost use Rattle.round_trip.specs.Words.{Assoc, AssocId, At, LinkFragment, TableId};
ghost use Rattle.table_owners.specs.declared.places.LinkPlace.TheVariants as place;
ghost use Rattle.emc_base.specs.declared.ids.LinkFragId.{LinkFragId};
ghost use Rattle.cells.specs.Parts.{AreParts, schema_in};
ghost use Rattle.cells.specs.declared.parts.Parts.{Parts};
ghost use Rattle.schema_laws.specs.state_demand.Owners.{IsJoinedTo};
ghost use Rattle.regions.specs.region_laws.IsBasis.{IsBasis};
ghost use Rattle.regions.specs.Basis.{Basis};
ghost use Rattle.regions.specs.Patterns.{pattern_of};
ghost use Rattle.regions.specs.declared.pattern.Focus.TheVariants as focus;
ghost use Rattle.regions.specs.declared.pattern.PatternRow.{PatternRow};

/// The cells of sound parts tell an association set as joined exactly where its link fragment alone writes a table, with both keys as the primary key.
pub fn joined_links_are_told()
    ensures told { (parts : Parts) → AreParts parts → (t : TableId) (fragment : LinkFragment) (assoc : Assoc) → IsJoinedTo (schema_in parts) t fragment assoc
        → (number : LinkFragId) × At parts.cells.now.places fragment.assoc.index (place.Joined number) }
    ensures only { (parts : Parts) → AreParts parts → (a : AssocId) (number : LinkFragId) → At parts.cells.now.places a.index (place.Joined number)
        → (t : TableId) × (fragment : LinkFragment) × (assoc : Assoc) × IsJoinedTo (schema_in parts) t fragment assoc × (fragment.assoc ≡ a) }
{}

/// The pattern of a joined association is one row, of the table that it owns.
pub fn a_joined_pattern_is_one_row()
    ensures one { (basis : Basis) → IsBasis basis → (t : TableId) (fragment : LinkFragment) (assoc : Assoc) → IsJoinedTo basis.schema t fragment assoc
        → (row : PatternRow) × ((pattern_of basis (focus.Link fragment.assoc)).rows ≡ row ∷ []) × (row.table ≡ t) }
{}
