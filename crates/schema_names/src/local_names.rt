ghost use Rattle.std.specs.Prelude.{◌≡◌, option_map};
ghost use Rattle.groupings.specs.name_places.Fronts.{rest_of};
ghost use Rattle.schema_names.specs.SchemaNames.{local_name};

use edm_types::EntityModel;
use groupings::rest_after;

/// The name that a reference gives: it follows the Namespace, or else the Alias, and a dot.
pub fn local_name<'a>(model: &EntityModel, reference: &'a str) -> Option<&'a str>
    ensures { option_map (λ name. name.now) result ≡ local_name model.now reference.now }
{
    match rest_of(model.namespace.as_str(), reference) {
        Some(name) => Some(name),
        None => rest_of(model.alias.as_ref()?.as_str(), reference),
    }
}

// What follows the name of a schema and a dot.
fn rest_of<'a>(schema: &str, reference: &'a str) -> Option<&'a str>
    ensures { option_map (λ rest. rest.now) result ≡ rest_of schema.now reference.now }
{
    rest_after(".", rest_after(schema, reference)?)
}
