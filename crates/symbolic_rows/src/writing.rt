ghost use Rattle.std.specs.Prelude.{◌≡◌, ◌++◌, IfOk, map, if◌then◌else◌};
ghost use Rattle.regions.specs.Symbols.{cond_symbols, conds_symbols, end_symbols, fragment_writing, link_fragment_writing};
ghost use Rattle.regions.specs.declared.pattern.Symbol.TheVariants as symbol;
ghost use Rattle.symbolic_rows.specs.Written.{in_symbols};

use edm_types::{Cond, CondOn, Fragment, LinkFragment, Pair, Test};
use emc_base::{AssocId, ColId, Memory, Seq, TableId};
use regions::Symbol;
use std::alloc::Global;

/// What one fragment writes: the columns with their symbols.
#[derive(Drop)]
pub struct Writing {
    pub table: TableId,
    pub cells: Seq<(ColId, Symbol)>,
}

/// What an entity writes by a fragment. `Memory` comes where memory ran out.
pub fn fragment_writing(alloc: Global, fragment: &Fragment) -> Result<Writing, Memory>
    ensures { IfOk result (λ writing. in_symbols writing ≡ fragment_writing fragment.now) }
{
    let mut cells = Seq::empty(alloc);
    add_pairs(&mut cells, fragment.pairs.as_slice())?;
    add_conds(alloc, &mut cells, fragment.conds.as_slice())?;
    Ok(Writing {
        table: fragment.table,
        cells,
    })
}

/// What a link writes by a fragment, of whose ends it is told whether they host. `Memory` comes where memory ran out.
pub fn link_fragment_writing(
    alloc: Global,
    first_hosts: bool,
    second_hosts: bool,
    fragment: &LinkFragment,
) -> Result<Writing, Memory>
    ensures { IfOk result (λ writing. in_symbols writing ≡ link_fragment_writing first_hosts second_hosts fragment.now) }
{
    let mut cells = Seq::empty(alloc);
    let assoc = fragment.assoc;
    add_end(
        &mut cells,
        assoc,
        true,
        first_hosts,
        fragment.first.as_slice(),
    )?;
    add_end(
        &mut cells,
        assoc,
        false,
        second_hosts,
        fragment.second.as_slice(),
    )?;
    add_conds(alloc, &mut cells, fragment.conds.as_slice())?;
    Ok(Writing {
        table: fragment.table,
        cells,
    })
}

// Adds the entity's properties.
fn add_pairs(cells: &mut Seq<(ColId, Symbol)>, pairs: &[Pair]) -> Result<(), Memory>
    ensures { IfOk result (λ _. cells.new ≡ cells.old ++ map (λ pair. (pair.col, symbol.Prop pair.prop)) pairs.now) }
{
    for pair in pairs {
        cells.push((pair.col, Symbol::Prop(pair.prop)))?;
    }
    Ok(())
}

// Adds the key at one end of a link: as the entity's own where this end hosts the link.
fn add_end(
    cells: &mut Seq<(ColId, Symbol)>,
    assoc: AssocId,
    first: bool,
    hosts: bool,
    pairs: &[Pair],
) -> Result<(), Memory>
    ensures { IfOk result (λ _. cells.new ≡ cells.old ++ end_symbols assoc first hosts pairs.now) }
{
    for pair in pairs {
        cells.push((pair.col, end_symbol(assoc, first, hosts, pair)))?;
    }
    Ok(())
}

// The symbol of a part of the key at one end of a link.
fn end_symbol(assoc: AssocId, first: bool, hosts: bool, pair: &Pair) -> Symbol
    ensures { result ≡ (if hosts then symbol.Prop pair.now.prop else symbol.End assoc first pair.now.prop) }
{
    if hosts {
        Symbol::Prop(pair.prop)
    } else {
        Symbol::End {
            assoc,
            first,
            prop: pair.prop,
        }
    }
}

// Adds what conditions write.
fn add_conds(alloc: Global, cells: &mut Seq<(ColId, Symbol)>, conds: &[Cond]) -> Result<(), Memory>
    ensures { IfOk result (λ _. cells.new ≡ cells.old ++ conds_symbols conds.now) }
{
    for cond in conds {
        add_cond(alloc, cells, cond)?;
    }
    Ok(())
}

// Adds what a condition writes: its column's constant, or null.
fn add_cond(alloc: Global, cells: &mut Seq<(ColId, Symbol)>, cond: &Cond) -> Result<(), Memory>
    ensures { IfOk result (λ _. cells.new ≡ cells.old ++ cond_symbols cond.now.on cond.now.test) }
{
    match (cond.on, &cond.test) {
        (CondOn::Col(col), Test::Equals(constant)) => {
            cells.push((col, Symbol::Const(constant.copy(alloc)?)))
        }
        (CondOn::Col(col), Test::IsNull(true)) => cells.push((col, Symbol::Null)),
        _ => Ok(()),
    }
}
