ghost use Rattle.std.specs.Prelude.{◌≡◌, IfOk, map};
ghost use Rattle.forced_entities.specs.Spots.{IsSpotOf, part_of};

use crate::member::Forced;
use emc_base::{Memory, Value};
use regions::Symbol;
use std::alloc::Global;

/// A part of a key as it is looked up: what is told of it.
#[derive(PartialEq, Eq, PartialOrd, Ord, Drop)]
pub enum Part {
    /// Nothing.
    Unknown,
    /// It is null.
    Null,
    /// It is a constant.
    Const(Value),
    /// It is the value of the property of this number.
    Prop(u32),
    /// It is the part of the key at an end of a link: by association, whether it is the first end, and by property.
    End(u32, bool, u32),
}

/// A forced entity as it is looked up among others.
#[derive(PartialEq, Eq, PartialOrd, Ord, Drop)]
pub struct Spot {
    pub set: u32,
    pub ty: u32,
    pub key: Vec<Part>,
}

/// The same entity, as it is looked up. `Memory` comes where memory ran out.
pub fn spot_of(alloc: Global, one: &Forced) -> Result<Spot, Memory>
    ensures { IfOk result (IsSpotOf one.now) }
{
    let mut key = Vec::with_capacity(alloc, one.key.len())?;
    for part in one.key.as_slice() {
        key.push(part_of(alloc, part)?)?;
    }
    Ok(Spot {
        set: one.set.index,
        ty: one.ty.index,
        key,
    })
}

// What is told of a part.
fn part_of(alloc: Global, part: &Option<Symbol>) -> Result<Part, Memory>
    ensures { IfOk result (λ told. told ≡ part_of part.now) }
{
    let Some(symbol) = part else {
        return Ok(Part::Unknown);
    };
    Ok(match symbol {
        Symbol::Null => Part::Null,
        Symbol::Const(value) => Part::Const(value.copy(alloc)?),
        Symbol::Prop(prop) => Part::Prop(prop.index),
        Symbol::End { assoc, first, prop } => Part::End(assoc.index, *first, prop.index),
    })
}
