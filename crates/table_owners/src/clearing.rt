ghost use Rattle.table_owners.specs.Clearing.{Clears, Each, IsColumn, IsCondOn, IsPairOn, IsNamedByEntities, IsNamedByLinks};

use crate::putting::put;
use edm_types::{Cond, CondOn, Fragment, LinkFragment, Pair};
use emc_base::{ColId, TableId};

/// Takes the columns that these fragments name as not free.
pub fn clear_entities(free: &mut Vec<Vec<bool>>, fragments: &[Fragment])
    ensures { Clears (Each IsNamedByEntities fragments.now) free.old.items free.new.items }
{
    for fragment in fragments {
        clear_pairs(free, fragment.table, fragment.pairs.as_slice());
        clear_conds(free, fragment.table, fragment.conds.as_slice());
    }
}

/// Takes the columns that these fragments of links name as not free.
pub fn clear_links(free: &mut Vec<Vec<bool>>, fragments: &[LinkFragment])
    ensures { Clears (Each IsNamedByLinks fragments.now) free.old.items free.new.items }
{
    for fragment in fragments {
        clear_pairs(free, fragment.table, fragment.first.as_slice());
        clear_pairs(free, fragment.table, fragment.second.as_slice());
        clear_conds(free, fragment.table, fragment.conds.as_slice());
    }
}

// Takes the columns of these pairs as not free.
fn clear_pairs(free: &mut Vec<Vec<bool>>, table: TableId, pairs: &[Pair])
    ensures { Clears (Each (IsPairOn table) pairs.now) free.old.items free.new.items }
{
    for pair in pairs {
        clear(free, table, pair.col);
    }
}

// Takes the columns of these conditions as not free.
fn clear_conds(free: &mut Vec<Vec<bool>>, table: TableId, conds: &[Cond])
    ensures { Clears (Each (IsCondOn table) conds.now) free.old.items free.new.items }
{
    for cond in conds {
        clear_cond(free, table, cond);
    }
}

// Takes the column of a condition as not free, if it is on a column.
fn clear_cond(free: &mut Vec<Vec<bool>>, table: TableId, cond: &Cond)
    ensures { Clears (IsCondOn table cond.now) free.old.items free.new.items }
{
    match cond.on {
        CondOn::Col(col) => clear(free, table, col),
        CondOn::Prop(_) => {}
    }
}

// Takes a column as not free, if there is such a column.
fn clear(free: &mut Vec<Vec<bool>>, table: TableId, col: ColId)
    ensures { Clears (IsColumn table col) free.old.items free.new.items }
{
    let place = table.index as usize;
    if place < free.len() {
        put(&mut free[place], col.index, false);
    }
}
