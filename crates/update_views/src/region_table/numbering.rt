ghost use Rattle.std.specs.Prelude.{◌≡◌, ◌≤◌, IfOk, IfSome};
ghost use Rattle.cells.specs.Parts.{AreParts};
ghost use Rattle.region_states.specs.region_basis.BasisOf.{basis_of};
ghost use Rattle.update_views.specs.region_table.Numbers.{numbered, place_by, place_in};
ghost use Rattle.update_views.specs.region_table.Finds.{Finds};

use crate::region_table::counting::capped;
use crate::region_table::making::types_of;
use crate::region_table::telling::Test;
use cells::Parts;
use edm_types::{Entity, Hosted};
use emc_base::{Memory, Seq, SetId};
use std::alloc::Global;

/// Finds the place of the region that holds an entity, among the regions of its set, without the mapping.
#[derive(Drop)]
pub struct RegionTable {
    // By the model's types; `None` where a type isn't the set's, or is abstract.
    types: Seq<Option<TypeTests>>,
}

/// What tells the regions of a type apart.
#[derive(Drop)]
pub struct TypeTests {
    /// How many regions of the set have a type that comes before.
    pub first: u32,
    /// The tests, the one whose digit varies fastest last.
    pub tests: Seq<Test>,
}

impl RegionTable {
    /// The table of a set; it finds nothing where there is no such set. `Memory` where memory ran out; a set of more than 1,048,575 regions
    /// counts as want of memory. The time is that of `count`, and for each type of the set that of its properties, of their atoms and
    /// constants, and of the association sets.
    pub fn of(alloc: Global, parts: &Parts<'_>, set: SetId) -> Result<RegionTable, Memory>
        requires { AreParts parts.now }
        ensures { IfOk result (Finds (basis_of parts.now) set) }
    {
        Ok(RegionTable {
            types: types_of(alloc, parts, set)?,
        })
    }

    /// The place of the region that holds an entity with the links that it hosts; `None` where none does. It takes no memory, any entity and
    /// any links.
    pub fn place(&self, entity: &Entity, links: &Seq<Hosted>) -> Option<usize>
        ensures { result ≡ place_in self.now entity.now links.now }
    {
        match self.types.get(entity.ty.index as usize) {
            Some(Some(tests)) => tests.place(entity, links.as_slice()),
            _ => None,
        }
    }
}

impl TypeTests {
    // The place among all regions of the set.
    fn place(&self, entity: &Entity, links: &[Hosted]) -> Option<usize>
        ensures { result ≡ place_by self.now entity.now links.now }
    {
        let number = number_of(self.tests.as_slice(), entity, links)?;
        Some(self.first as usize + number as usize)
    }
}

// The number among the regions of the type: that of the entity's digits.
fn number_of(tests: &[Test], entity: &Entity, links: &[Hosted]) -> Option<u64>
    ensures number { result ≡ numbered entity.now links.now 0 tests.now }
    ensures bound { IfSome result (λ number. number ≤ 1048576) }
{
    let mut number = 0;
    for test in tests {
        let Some(digit) = test.digit(entity, links) else {
            return None;
        };
        number = capped(number * test.size() as u64 + digit as u64);
    }
    Some(number)
}
