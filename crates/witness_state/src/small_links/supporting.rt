ghost use Rattle.std.specs.Prelude.{◌≡◌, ◌≤◌, ◌++◌, IfOk, flat_map, map};
ghost use Rattle.population.specs.LinkStates.{key_at, placed_at};
ghost use Rattle.population.specs.Principals.{principals};
ghost use Rattle.witness_state.specs.SmallLinks.{plain_end, root_at, supporting};

use crate::small_links::ends::{EndAt, key_at, placed_at};
use edm_types::EntityModel;
use emc_base::{Memory, Seq};
use population::{Placed, PlacedKey, PlacedLink, Supporting};
use std::alloc::Global;
use supported_states::{principals, support};

/// What the state is made of that holds the plain entities at these ends, by one of the five rows of numbered values, and these links.
/// `Memory` comes where memory ran out.
pub(crate) fn supporting(
    alloc: Global,
    model: &EntityModel,
    row: u32,
    ends: &[EndAt<'_>],
    links: Seq<PlacedLink>,
) -> Result<Supporting, Memory>
    requires { row ≤ 4 }
    ensures { IfOk result (λ one. one ≡ supporting model.now row (map plain_end ends.now) links) }
{
    let given = given_at(alloc, model, row, ends)?;
    let wanted = wanted_by(alloc, model, given.as_slice())?;
    let keys = support(alloc, model, row, &given, &wanted)?;
    Ok(Supporting { given, keys, links })
}

// The plain entities at these ends.
fn given_at(
    alloc: Global,
    model: &EntityModel,
    row: u32,
    ends: &[EndAt<'_>],
) -> Result<Seq<Placed>, Memory>
    requires { row ≤ 4 }
    ensures { IfOk result (λ given. given ≡ map (λ one. placed_at model.now row (plain_end one)) ends.now) }
{
    let mut given = Seq::empty(alloc);
    for one in ends {
        given.push(placed_at(alloc, model, row, one)?)?;
    }
    Ok(given)
}

// The principals that these entities ask for.
fn wanted_by(alloc: Global, model: &EntityModel, given: &[Placed]) -> Result<Seq<PlacedKey>, Memory>
    ensures { IfOk result (λ keys. keys ≡ flat_map (λ placed. principals model.now placed.set placed.entity) given.now) }
{
    let mut wanted = Seq::empty(alloc);
    for placed in given {
        let own = principals(alloc, model, placed.set, &placed.entity)?;
        append(alloc, &mut wanted, own.as_slice())?;
    }
    Ok(wanted)
}

// Adds copies of these keys behind others.
fn append(alloc: Global, all: &mut Seq<PlacedKey>, keys: &[PlacedKey]) -> Result<(), Memory>
    ensures { IfOk result (λ _. all.new ≡ all.old ++ keys.now) }
{
    for placed in keys {
        all.push(copy_placed(alloc, placed)?)?;
    }
    Ok(())
}

// The same key in the same set.
fn copy_placed(alloc: Global, placed: &PlacedKey) -> Result<PlacedKey, Memory>
    ensures { IfOk result (λ copy. copy ≡ placed.now) }
{
    Ok(PlacedKey {
        set: placed.set,
        key: placed.key.copy(alloc)?,
    })
}

/// The keys of the entities at these ends, by one of the five rows of numbered values. `Memory` comes where memory ran out.
pub(crate) fn roots_at(
    alloc: Global,
    model: &EntityModel,
    row: u32,
    ends: &[EndAt<'_>],
) -> Result<Seq<PlacedKey>, Memory>
    requires { row ≤ 4 }
    ensures { IfOk result (λ roots. roots ≡ map (λ one. root_at model.now row (plain_end one)) ends.now) }
{
    let mut roots = Seq::empty(alloc);
    for one in ends {
        roots.push(root_at(alloc, model, row, one)?)?;
    }
    Ok(roots)
}

// The key of the entity at an end, in its set.
fn root_at(
    alloc: Global,
    model: &EntityModel,
    row: u32,
    one: &EndAt<'_>,
) -> Result<PlacedKey, Memory>
    requires { row ≤ 4 }
    ensures { IfOk result (λ root. root ≡ root_at model.now row (plain_end one.now)) }
{
    Ok(PlacedKey {
        set: one.end.set,
        key: key_at(alloc, model, row, one)?,
    })
}
