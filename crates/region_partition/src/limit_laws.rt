//! No two different limits are told of one schema.

ghost use Rattle.std.specs.Prelude.{◌≡◌, Option};
ghost use Rattle.round_trip.specs.Words.{LimitFault, Schema};
ghost use Rattle.region_partition.specs.mapping_limits.FirstLimit.{IsFirstLimit};

/// The law that no two different limits are told of one schema.
pub fn one_limit()
    ensures { (schema : Schema) (one two : Option LimitFault) → IsFirstLimit schema one → IsFirstLimit schema two → one ≡ two }
{}
