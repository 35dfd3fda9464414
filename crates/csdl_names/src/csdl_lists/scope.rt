ghost use Rattle.std.specs.Prelude.{◌≡◌, ◌∷◌, ◌++◌, [], IfOk, option_map, string_bytes};
ghost use Rattle.groupings.specs.name_places.GivenNames.{first_place};
ghost use Rattle.groupings.specs.name_places.PlacesIn.{place_in};
ghost use Rattle.csdl_names.specs.csdl_lists.Scopes.{IsScopeOf, local_in, names_of};

use crate::csdl_lists::raw::RawModel;
use emc_base::{Memory, Seq, Txt, both};
use groupings::{Named, Places, places_of, rest_after};
use std::alloc::Global;

/// What the names in a model stand for: places in its lists, counted from 0.
#[derive(Drop)]
pub struct Scope {
    /// The Namespace and a dot.
    namespace: String,
    /// The Alias and a dot, where there is one.
    alias: Option<String>,
    /// Where the name of each entity type is given first.
    pub types: Places,
    /// Where that of each enumeration type is.
    pub enums: Places,
    /// Where that of each association is.
    pub associations: Places,
    /// Where that of each entity set is.
    pub sets: Places,
}

impl Scope {
    /// The names of this model.
    pub fn of(alloc: Global, model: &RawModel) -> Result<Scope, Memory>
        ensures { IfOk result (IsScopeOf model.now) }
    {
        let dotted = dotted_names(alloc, &model.namespace, &model.alias);
        let types = two_places_of(alloc, &model.types, &model.enums);
        let sets = two_places_of(alloc, &model.associations, &model.container.sets);
        let ((namespace, alias), places) = both(dotted, both(types, sets))?;
        let ((types, enums), (associations, sets)) = places;
        Ok(Scope {
            namespace,
            alias,
            types,
            enums,
            associations,
            sets,
        })
    }

    /// The entity type that a reference names.
    pub fn type_named(&self, text: &str) -> Option<usize>
        ensures { result ≡ (names_of self.now).type_named text.now }
    {
        self.types.place_of(self.local_name(text)?)
    }

    /// The enumeration type that a reference names.
    pub fn enum_named(&self, text: &str) -> Option<usize>
        ensures { result ≡ (names_of self.now).enum_named text.now }
    {
        self.enums.place_of(self.local_name(text)?)
    }

    /// The association that a reference names.
    pub fn association_named(&self, text: &str) -> Option<usize>
        ensures { result ≡ (names_of self.now).association_named text.now }
    {
        self.associations.place_of(self.local_name(text)?)
    }

    /// The entity set of a name.
    pub fn set_named(&self, name: &str) -> Option<usize>
        ensures { result ≡ (names_of self.now).set_named name.now }
    {
        self.sets.place_of(name)
    }

    // The name that a reference gives: it follows the Namespace, or else the Alias.
    fn local_name<'a>(&self, text: &'a str) -> Option<&'a str>
        ensures { option_map (λ name. name.now) result ≡ local_in self.now text.now }
    {
        match rest_after(self.namespace.as_str(), text) {
            Some(name) => Some(name),
            None => rest_after(self.alias.as_ref()?.as_str(), text),
        }
    }
}

// The first places of the names in two lists.
fn two_places_of<T: Named, U: Named>(
    alloc: Global,
    ones: &Seq<T>,
    others: &Seq<U>,
) -> Result<(Places, Places), Memory>
    ensures ones { IfOk result (λ places. place_in places.0 ≡ first_place T.name_in ones.now) }
    ensures others { IfOk result (λ places. place_in places.1 ≡ first_place U.name_in others.now) }
{
    let first = places_of(alloc, ones)?;
    let second = places_of(alloc, others)?;
    Ok((first, second))
}

// The Namespace and a dot, and the Alias and a dot.
fn dotted_names(
    alloc: Global,
    namespace: &Txt,
    alias: &Option<Txt>,
) -> Result<(String, Option<String>), Memory>
    ensures namespace { IfOk result (λ names. string_bytes names.0 ≡ namespace.now ++ 46 ∷ []) }
    ensures alias { IfOk result (λ names. option_map string_bytes names.1 ≡ option_map (λ text. text ++ 46 ∷ []) alias.now) }
{
    let first = dotted(alloc, namespace)?;
    let second = dotted_alias(alloc, alias)?;
    Ok((first, second))
}

// A text and a dot.
fn dotted(alloc: Global, text: &Txt) -> Result<String, Memory>
    ensures { IfOk result (λ dotted. string_bytes dotted ≡ text.now ++ 46 ∷ []) }
{
    Ok(format!(in alloc; "{}.", text.as_str())?)
}

fn dotted_alias(alloc: Global, alias: &Option<Txt>) -> Result<Option<String>, Memory>
    ensures { IfOk result (λ dotted. option_map string_bytes dotted ≡ option_map (λ text. text ++ 46 ∷ []) alias.now) }
{
    match alias {
        None => Ok(None),
        Some(alias) => {
            let dotted = dotted(alloc, alias)?;
            Ok(Some(dotted))
        }
    }
}
