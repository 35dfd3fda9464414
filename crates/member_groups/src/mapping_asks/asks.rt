ghost use Rattle.std.specs.Prelude.{◌≡◌, Contains, IfOk};
ghost use Rattle.member_groups.specs.mapping_asks.Adding.{Adds, Each, Tells};
ghost use Rattle.member_groups.specs.mapping_asks.Asks.{Asks, AsksBy, AsksByLink, IsAskBy, IsImpliedBy, ask_by, constant_in};

use crate::mapping_asks::member::{MemberId, asked_by};
use edm_types::{Cond, Fragment, LinkFragment, Mapping, Pair, Test};
use emc_base::{Memory, TableId, Value};
use std::alloc::Global;

/// What a mapping asks of a property or a column: a condition is on it, or an implied one.
#[derive(Drop)]
pub struct Ask {
    /// The property or the column.
    pub on: MemberId,
    /// The value with which the condition compares it, if it does.
    pub constant: Option<Value>,
}

/// All that a mapping asks.
pub fn asks_of(alloc: Global, mapping: &Mapping) -> Result<Vec<Ask>, Memory>
    ensures { IfOk result (λ asks. Tells (Contains asks.items) (Asks mapping.now)) }
{
    let mut asks = Vec::new(alloc);
    add_fragments(alloc, &mut asks, mapping.fragments.as_slice())?;
    add_links(alloc, &mut asks, mapping.links.as_slice())?;
    Ok(asks)
}

// Adds what these entity fragments ask.
fn add_fragments(alloc: Global, asks: &mut Vec<Ask>, fragments: &[Fragment]) -> Result<(), Memory>
    ensures { IfOk result (λ _. Adds (Each AsksBy fragments.now) (Contains asks.old.items) (Contains asks.new.items)) }
{
    for fragment in fragments {
        add_conditions(alloc, asks, fragment.table, fragment.conds.as_slice())?;
    }
    Ok(())
}

// Adds what these link fragments ask.
fn add_links(alloc: Global, asks: &mut Vec<Ask>, fragments: &[LinkFragment]) -> Result<(), Memory>
    ensures { IfOk result (λ _. Adds (Each AsksByLink fragments.now) (Contains asks.old.items) (Contains asks.new.items)) }
{
    for fragment in fragments {
        add_link(alloc, asks, fragment)?;
    }
    Ok(())
}

// Adds what a link fragment asks: its conditions, and that no column is null that it writes.
fn add_link(alloc: Global, asks: &mut Vec<Ask>, fragment: &LinkFragment) -> Result<(), Memory>
    ensures { IfOk result (λ _. Adds (AsksByLink fragment.now) (Contains asks.old.items) (Contains asks.new.items)) }
{
    let table = fragment.table;
    add_conditions(alloc, asks, table, fragment.conds.as_slice())?;
    add_columns(asks, table, fragment.first.as_slice())?;
    add_columns(asks, table, fragment.second.as_slice())
}

// Adds these conditions of a fragment to this table.
fn add_conditions(
    alloc: Global,
    asks: &mut Vec<Ask>,
    table: TableId,
    conds: &[Cond],
) -> Result<(), Memory>
    ensures { IfOk result (λ _. Adds (Each (IsAskBy table) conds.now) (Contains asks.old.items) (Contains asks.new.items)) }
{
    for cond in conds {
        asks.push(ask_of(alloc, table, cond)?)?;
    }
    Ok(())
}

// Adds the implied conditions on the columns of these pairs.
fn add_columns(asks: &mut Vec<Ask>, table: TableId, pairs: &[Pair]) -> Result<(), Memory>
    ensures { IfOk result (λ _. Adds (Each (IsImpliedBy table) pairs.now) (Contains asks.old.items) (Contains asks.new.items)) }
{
    for pair in pairs {
        asks.push(Ask {
            on: MemberId::Column(table, pair.col),
            constant: None,
        })?;
    }
    Ok(())
}

// What a condition of a fragment to this table asks.
fn ask_of(alloc: Global, table: TableId, cond: &Cond) -> Result<Ask, Memory>
    ensures { IfOk result (λ ask. ask ≡ ask_by table cond.now) }
{
    let constant = constant_of(alloc, &cond.test)?;
    Ok(Ask {
        on: asked_by(table, cond.on),
        constant,
    })
}

// The value with which a condition compares, if it does.
fn constant_of(alloc: Global, test: &Test) -> Result<Option<Value>, Memory>
    ensures { IfOk result (λ constant. constant ≡ constant_in test.now) }
{
    match test {
        Test::IsNull(_) => Ok(None),
        Test::Equals(value) => Ok(Some(value.copy(alloc)?)),
    }
}
