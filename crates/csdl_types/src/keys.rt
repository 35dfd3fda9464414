ghost use Rattle.std.specs.Prelude.{◌≡◌, ◌≢◌, ◌↔◌, AllPairs, Contains, List, ℕ, IfOk, IsTrue};
ghost use Rattle.groupings.specs.least_fault.Least.{IsLeast};
ghost use Rattle.layouts.specs.Faults.{fault_cmp};
ghost use Rattle.groupings.specs.name_places.GivenNames.{first_place};
ghost use Rattle.groupings.specs.name_places.PlacesIn.{place_in};
ghost use Rattle.csdl_names.specs.declared.csdl_lists.raw.RawProp.{RawProp};
ghost use Rattle.csdl_types.specs.Keys.{BreaksKey, CanBeKey, HasFailingKeyProp, IsKey, IsKeyFault, IsKeyPropFault, IsKeySimple};

use crate::simple::{Simple, simple_of};
use csdl_names::{RawProp, RawType};
use emc_base::{Memory, Seq, Txt};
use groupings::{Finder, Places, first_places};
use layouts::{Fault, Rule, fault_here_if, fault_if, first_in_list};
use std::alloc::Global;

/// The least fault of a type against V9.
pub(crate) fn first_key_fault(alloc: Global, ty: &RawType) -> Result<Option<Fault>, Memory>
    ensures { IfOk result (IsLeast fault_cmp (IsKeyFault ty.now)) }
{
    let found = fault_if(alloc, breaks_key(&ty.base, &ty.key), Rule::TypeKey, "Key")?;
    Ok(found)
}

fn breaks_key(base: &Option<Txt>, key: &Option<Seq<Txt>>) -> bool
    ensures { IsTrue result ↔ BreaksKey base.now key.now }
{
    match (base, key) {
        (None, None) => true,
        (None, Some(names)) => !is_key(names.as_slice()),
        (Some(_), None) => false,
        (Some(_), Some(_)) => true,
    }
}

/// Whether these may be the names of a key: one to four, each once.
pub fn is_key(names: &[Txt]) -> bool
    ensures { IsTrue result ↔ IsKey names.now }
{
    !names.is_empty() && names.len() <= 4 && are_apart(names)
}

fn are_apart(names: &[Txt]) -> bool
    ensures { IsTrue result ↔ AllPairs (λ one other. one ≢ other) names.now }
{
    for (place, name) in names.iter().enumerate() {
        if stands_in(name, &names[..place]) {
            return false;
        }
    }
    true
}

/// Whether the name is among these.
pub fn stands_in(name: &Txt, names: &[Txt]) -> bool
    ensures { IsTrue result ↔ Contains names.now name.now }
{
    names.iter().any(|other| other.as_str() == name.as_str())
}

/// Which properties of a key fail a rule.
pub trait KeyTest {
    /// The property fails.
    ghost fails: { Self → RawProp → Type 0 };

    /// Whether the property fails.
    fn is_failing(&self, prop: &RawProp) -> bool
        ensures { IsTrue result ↔ fails self.now prop.now };
}

/// V10: a property of a key isn't nullable, and is of a type that a key may have.
#[derive(Clone, Copy)]
struct KeyProperties {}

impl KeyTest for KeyProperties {
    ghost use Rattle.csdl_types.specs.Keys.{CanBeKey};

    ghost fails = { λ _ prop. ¬ CanBeKey prop };

    fn is_failing(&self, prop: &RawProp) -> bool {
        !can_be_key(prop)
    }
}

/// Whether a property whose name a key has fails.
#[derive(Drop)]
struct KeyProps<'a, T> {
    key: &'a [Txt],
    places: &'a Places,
    rule: Rule,
    test: &'a T,
    ghost of: { place_in places.now ≡ first_place (λ name. name) key.now },
}

impl<'a, T: KeyTest> Finder<RawProp, Fault> for KeyProps<'a, T> {
    ghost use Rattle.csdl_types.specs.Keys.{IsFailingKeyProp};

    ghost wrong = { λ s _ prop. IsFailingKeyProp s.rule (T.fails s.test.now) s.key.now prop };

    fn find(&self, alloc: Global, _place: usize, item: &RawProp) -> Result<Option<Fault>, Memory> {
        let found = fault_here_if(alloc, self.is_broken(item), self.rule)?;
        Ok(found)
    }
}

impl<'a, T: KeyTest> KeyProps<'a, T> {
    fn is_broken(&self, prop: &RawProp) -> bool
        ensures { IsTrue result ↔ (Contains self.now.key.now prop.now.name × T.fails self.now.test.now prop.now) }
    {
        is_named(self.places, &prop.name) && self.test.is_failing(prop)
    }
}

/// The least fault of a type against V10.
pub(crate) fn first_key_prop_fault(alloc: Global, ty: &RawType) -> Result<Option<Fault>, Memory>
    ensures { IfOk result (IsLeast fault_cmp (IsKeyPropFault ty.now)) }
{
    let found = first_failing_key_prop(alloc, Rule::KeyProperty, &KeyProperties {}, ty)?;
    Ok(found)
}

/// The least of the properties in a type's key that fail, as a fault against a rule. `Memory` comes where memory ran out.
pub fn first_failing_key_prop<T: KeyTest>(
    alloc: Global,
    rule: Rule,
    test: &T,
    ty: &RawType,
) -> Result<Option<Fault>, Memory>
    ensures { IfOk result (IsLeast fault_cmp (HasFailingKeyProp rule (T.fails test.now) ty.now)) }
{
    let Some(names) = &ty.key else {
        return Ok(None);
    };
    let key = names.as_slice();
    let places = first_places(alloc, key)?;
    let search = KeyProps {
        key,
        places: &places,
        rule,
        test,
    };
    let found = first_in_list(alloc, "Property", &search, ty.props.as_slice())?;
    Ok(found)
}

// Whether a name is one of those whose places these are.
fn is_named(places: &Places, name: &Txt) -> bool
    ensures { (names : List (List ℕ)) → place_in places.now ≡ first_place (λ name. name) names → (IsTrue result ↔ Contains names name.now) }
{
    places.place_of(name.as_str()).is_some()
}

fn can_be_key(prop: &RawProp) -> bool
    ensures { IsTrue result ↔ CanBeKey prop.now }
{
    !prop.nullable && is_key_simple(simple_of(prop.kind.as_str()))
}

/// Whether a part of a key may be of a simple type: a whole number of two to eight bytes, or a text.
pub fn is_key_simple(simple: Option<Simple>) -> bool
    ensures { IsTrue result ↔ IsKeySimple simple }
{
    matches!(
        simple,
        Some(Simple::Int16 | Simple::Int32 | Simple::Int64 | Simple::Text)
    )
}
