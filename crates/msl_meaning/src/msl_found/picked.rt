ghost use Rattle.std.specs.Prelude.{◌≡◌};
ghost use Rattle.msl_rules.specs.Found.{prop_of_picks};
ghost use Rattle.msl_meaning.specs.msl_found.NamedAt.{named_at};

use msl_rules::RawPick;
use schema_names::SchemaNames;

/// The first of the picked types, by whose properties names in the fragments are looked up.
pub fn picked_type(names: &SchemaNames<'_>, picks: &[RawPick]) -> Option<usize>
    ensures { named_at names.now.model.now result ≡ prop_of_picks names.now.model.now picks.now }
{
    let pick = picks.first()?;
    names.type_named(pick.reference.as_str())
}
