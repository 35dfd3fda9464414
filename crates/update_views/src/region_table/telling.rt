ghost use Rattle.std.specs.Prelude.{◌≡◌, ◌<◌, ◌^◌, IfSome, position};
ghost use Rattle.std.specs.List.{list_any};
ghost use Rattle.schema_laws.specs.state_demand.Selecting.{same_value};
ghost use Rattle.regions.specs.region_laws.RegionAt.{has_link};
ghost use Rattle.update_views.specs.region_table.Digits.{digit_of, lies_in, position_in, rule_digit, rule_size, size_of, value_digit};

use condition_logic::{Atom, AtomOf};
use edm_types::{Entity, Hosted};
use emc_base::{AssocId, Seq, Value};

/// What tells regions of a type apart: one of so many answers, which is a digit of the region's number.
#[derive(Drop)]
pub enum Test {
    /// In which atom of a tested property the value lies.
    Value(ValueTest),
    /// Whether a link of a hosted association is there.
    Link(LinkTest),
}

/// A tested property of a type.
#[derive(Drop)]
pub struct ValueTest {
    /// Where it stands among the type's properties.
    pub place: usize,
    /// The constants of its group.
    pub constants: Seq<Value>,
    /// Its atoms, in their order.
    pub atoms: Seq<AtomOf>,
}

/// An association that is hosted at the set, for entities of a type.
#[derive(Drop)]
pub struct LinkTest {
    pub assoc: AssocId,
    pub rule: LinkRule,
}

/// Which flags an association may have, for entities of a type.
#[derive(Clone, Copy)]
pub enum LinkRule {
    /// One alone, which isn't looked at: the partners may be any number.
    Unlooked,
    /// None: there may be no link.
    Barred,
    /// The flag: there must be a link.
    Needed,
    /// Both: there may be a link.
    Free,
}

impl Test {
    // The entity's digit; `None` where it has none.
    pub(super) fn digit(&self, entity: &Entity, links: &[Hosted]) -> Option<usize>
        ensures digit { result ≡ digit_of self.now entity.now links.now }
        ensures bound { IfSome result (λ digit. digit < 2 ^ 32) }
    {
        match self {
            Test::Value(test) => test.digit(entity),
            Test::Link(test) => test.rule.digit(has_link(links, test.assoc)),
        }
    }

    // How many digits there are.
    pub(super) fn size(&self) -> usize
        ensures size { result ≡ size_of self.now }
        ensures bound { result < 2 ^ 32 }
    {
        match self {
            Test::Value(test) => test.atoms.len(),
            Test::Link(test) => test.rule.size(),
        }
    }
}

impl ValueTest {
    // The position of the first atom in which the entity's value lies.
    fn digit(&self, entity: &Entity) -> Option<usize>
        ensures digit { result ≡ value_digit self.now entity.now }
        ensures bound { IfSome result (λ digit. digit < 2 ^ 32) }
    {
        match entity.values.get(self.place) {
            Some(value) => self.position(value),
            None => self.position(&Value::Null),
        }
    }

    // The same of a value.
    fn position(&self, value: &Value) -> Option<usize>
        ensures position { result ≡ position_in self.now value.now }
        ensures bound { IfSome result (λ digit. digit < 2 ^ 32) }
    {
        position_of(self.constants.as_slice(), self.atoms.as_slice(), value)
    }
}

// The position of the first of these atoms in which a value lies, where these are the constants.
fn position_of(constants: &[Value], atoms: &[AtomOf], value: &Value) -> Option<usize>
    ensures { result ≡ position (λ told. lies_in constants.now told.atom value.now) atoms.now }
{
    atoms
        .iter()
        .position(|told| lies_in(constants, &told.atom, value))
}

// Whether a value lies in an atom, where these are the constants.
fn lies_in(constants: &[Value], atom: &Atom, value: &Value) -> bool
    ensures { result ≡ lies_in constants.now atom.now value.now }
{
    match atom {
        Atom::Null => is_same(value, &Value::Null),
        Atom::Is(one) => is_same(value, one),
        Atom::Other => !is_same(value, &Value::Null) && !is_among(constants, value),
    }
}

// Whether two values are one.
fn is_same(one: &Value, other: &Value) -> bool
    ensures { result ≡ same_value one.now other.now }
{
    one == other
}

// Whether a value is one of these.
fn is_among(values: &[Value], value: &Value) -> bool
    ensures { result ≡ list_any (same_value value.now) values.now }
{
    values.iter().any(|other| value == other)
}

// Whether one of the links is of an association.
fn has_link(links: &[Hosted], assoc: AssocId) -> bool
    ensures { result ≡ has_link links.now assoc }
{
    links.iter().any(|hosted| hosted.assoc.index == assoc.index)
}

impl LinkRule {
    // The position of the flag that tells whether a link is there.
    fn digit(self, linked: bool) -> Option<usize>
        ensures digit { result ≡ rule_digit self linked }
        ensures bound { IfSome result (λ digit. digit < 2 ^ 32) }
    {
        match (self, linked) {
            (LinkRule::Unlooked, _) | (LinkRule::Barred | LinkRule::Free, false) => Some(0),
            (LinkRule::Needed, true) => Some(0),
            (LinkRule::Free, true) => Some(1),
            (LinkRule::Barred, true) | (LinkRule::Needed, false) => None,
        }
    }

    // How many flags there may be.
    fn size(self) -> usize
        ensures size { result ≡ rule_size self }
        ensures bound { result < 2 ^ 32 }
    {
        match self {
            LinkRule::Free => 2,
            LinkRule::Unlooked | LinkRule::Barred | LinkRule::Needed => 1,
        }
    }
}
