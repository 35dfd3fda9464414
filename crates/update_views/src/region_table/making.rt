ghost use Rattle.std.specs.Prelude.{◌≡◌, ◌<◌, ◌++◌, ◌==◌, All, IfOk, filter, length, map, position};
ghost use Rattle.std.specs.List.{enumerate_from};
ghost use Rattle.round_trip.specs.soundness.mappings.Joined.{prop};
ghost use Rattle.cells.specs.Parts.{AreParts};
ghost use Rattle.regions.specs.Basis.{host_end, partner_end};
ghost use Rattle.schema_laws.specs.sound_demand.Deriving.{derives};
ghost use Rattle.region_states.specs.region_basis.BasisOf.{basis_of};
ghost use Rattle.update_views.specs.region_table.Made.{AreTypeTests, link_by, link_test, place_among, rule_of, tests_by, type_tests, value_test, value_tests};

use crate::region_table::counting::{MOST_COUNTED, capped};
use crate::region_table::numbering::TypeTests;
use crate::region_table::telling::{LinkRule, LinkTest, Test, ValueTest};
use cells::Parts;
use edm_types::{Assoc, EntityModel, EntitySet, Mult};
use emc_base::{AssocId, Memory, PropId, Seq, SetId, TypeId};
use region_partition::{
    atoms_at, constants_of, count, count_of_type, derives, is_listed, is_tested, props_of,
};
use region_states::{host_end, hosting_end, partner_end};
use std::alloc::Global;

// The tests by the model's types; none where there is no such set.
pub(super) fn types_of(
    alloc: Global,
    parts: &Parts<'_>,
    set: SetId,
) -> Result<Seq<Option<TypeTests>>, Memory>
    requires { AreParts parts.now }
    ensures { IfOk result (AreTypeTests (basis_of parts.now) set) }
{
    if count(parts, set) >= MOST_COUNTED {
        return Err(Memory);
    }
    match parts.model.sets.get(set.index as usize) {
        Some(entry) => types_of_set(alloc, parts, set, entry),
        None => Ok(Seq::empty(alloc)),
    }
}

// The same of a set with its entry, however many regions there are.
fn types_of_set(
    alloc: Global,
    parts: &Parts<'_>,
    set: SetId,
    entry: &EntitySet,
) -> Result<Seq<Option<TypeTests>>, Memory>
    requires { AreParts parts.now }
    ensures { IfOk result (λ types. types ≡ map (type_tests (basis_of parts.now) set entry.now) (enumerate_from 0 parts.now.model.now.types)) }
{
    let mut types = Seq::empty(alloc);
    let mut first = 0;
    for (index, declared) in parts.model.types.as_slice().iter().enumerate() {
        let ty = TypeId {
            index: index as u32,
        };
        if is_listed(parts.model, entry, ty, declared) {
            let tests = tests_of_type(alloc, parts, set, ty, first as u32)?;
            types.push(Some(tests))?;
            first = capped(first + count_of_type(parts, set, ty));
        } else {
            types.push(None)?;
        }
    }
    Ok(types)
}

// The tests of a type, where so many regions come before.
fn tests_of_type(
    alloc: Global,
    parts: &Parts<'_>,
    set: SetId,
    ty: TypeId,
    first: u32,
) -> Result<TypeTests, Memory>
    requires { AreParts parts.now }
    ensures { IfOk result (λ made. made ≡ tests_by (basis_of parts.now) set ty first) }
{
    let mut tests = Seq::empty(alloc);
    add_values(alloc, &mut tests, parts, props_of(parts.model, ty))?;
    add_links(&mut tests, parts, set, ty)?;
    Ok(TypeTests { first, tests })
}

// Adds the tests of the tested ones among a type's properties.
fn add_values(
    alloc: Global,
    tests: &mut Seq<Test>,
    parts: &Parts<'_>,
    properties: &[PropId],
) -> Result<(), Memory>
    requires parts { AreParts parts.now }
    requires within { All (λ p. p.index < length parts.now.model.now.props) properties.now }
    ensures { IfOk result (λ _. tests.new ≡ tests.old ++ value_tests (basis_of parts.now) properties.now) }
{
    for property in properties {
        if is_tested(parts, *property) {
            tests.push(value_test(alloc, parts, properties, *property)?)?;
        }
    }
    Ok(())
}

// The test of a property.
fn value_test(
    alloc: Global,
    parts: &Parts<'_>,
    properties: &[PropId],
    property: PropId,
) -> Result<Test, Memory>
    requires parts { AreParts parts.now }
    requires within { property.index < length parts.now.model.now.props }
    ensures { IfOk result (λ test. test ≡ value_test (basis_of parts.now) properties.now property) }
{
    let constants = constants_of(parts, property).copy(alloc)?;
    let atoms = atoms_at(alloc, parts, property)?;
    Ok(Test::Value(ValueTest {
        place: place_among(properties, property),
        constants,
        atoms,
    }))
}

// Where a property stands among these; their number where it doesn't.
fn place_among(properties: &[PropId], property: PropId) -> usize
    ensures { result ≡ place_among properties.now property }
{
    place_of(properties, property).unwrap_or(properties.len())
}

// Where a property stands among these; `None` where it doesn't.
fn place_of(properties: &[PropId], property: PropId) -> Option<usize>
    ensures { result ≡ position (λ other. other.index == property.index) properties.now }
{
    properties
        .iter()
        .position(|other| other.index == property.index)
}

// Adds the tests of the associations that are hosted at the set.
fn add_links(tests: &mut Seq<Test>, parts: &Parts<'_>, set: SetId, ty: TypeId) -> Result<(), Memory>
    requires { AreParts parts.now }
    ensures { IfOk result (λ _. tests.new ≡ tests.old ++ map (link_test (basis_of parts.now) ty) ((basis_of parts.now).hosts set)) }
{
    for (index, assoc) in parts.model.assocs.as_slice().iter().enumerate() {
        let id = AssocId {
            index: index as u32,
        };
        if let Some(first_hosts) = hosting_end(set, assoc, parts.cells.link_place(id)) {
            tests.push(link_test(parts.model, ty, id, assoc, first_hosts))?;
        }
    }
    Ok(())
}

// The test of an association, for entities of a type that host its links at this end.
fn link_test(model: &EntityModel, ty: TypeId, id: AssocId, assoc: &Assoc, first_hosts: bool) -> Test
    ensures { result ≡ link_by id (rule_of (derives model.now ty (host_end first_hosts assoc.now).ty) (partner_end first_hosts assoc.now).mult) }
{
    Test::Link(LinkTest {
        assoc: id,
        rule: rule_of(
            derives(model, ty, host_end(first_hosts, assoc).ty),
            partner_end(first_hosts, assoc).mult,
        ),
    })
}

// Which flags there may be, by whether the type is the end's or derived from it and by how many partners there may be.
fn rule_of(may: bool, partners: Mult) -> LinkRule
    ensures { result ≡ rule_of may partners }
{
    match (partners, may) {
        (Mult::Many, _) => LinkRule::Unlooked,
        (_, false) => LinkRule::Barred,
        (Mult::One, true) => LinkRule::Needed,
        (Mult::ZeroOrOne, true) => LinkRule::Free,
    }
}
