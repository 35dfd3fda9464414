ghost use Rattle.std.specs.Prelude.{◌≡◌, IfOk};
ghost use Rattle.std.specs.List.{list_any};
ghost use Rattle.regions.specs.Symbols.{same_symbol};

use emc_base::Memory;
use regions::Symbol;
use std::alloc::Global;

/// Whether a symbol stands in a list.
pub fn stands(list: &[Symbol], symbol: &Symbol) -> bool
    ensures { result ≡ list_any (λ other. same_symbol other symbol.now) list.now }
{
    list.iter().any(|other| same_symbol(other, symbol))
}

/// Whether two symbols are one.
pub fn same_symbol(one: &Symbol, two: &Symbol) -> bool
    ensures { result ≡ same_symbol one.now two.now }
{
    match (one, two) {
        (Symbol::Null, Symbol::Null) => true,
        (Symbol::Const(value), Symbol::Const(other)) => value == other,
        (Symbol::Prop(prop), Symbol::Prop(other)) => prop.index == other.index,
        (
            Symbol::End { assoc, first, prop },
            Symbol::End {
                assoc: other_assoc,
                first: other_first,
                prop: other_prop,
            },
        ) => {
            assoc.index == other_assoc.index
                && *first == *other_first
                && prop.index == other_prop.index
        }
        _ => false,
    }
}

/// The same symbol. `Memory` comes where there is none for it.
pub fn copy_symbol(alloc: Global, symbol: &Symbol) -> Result<Symbol, Memory>
    ensures { IfOk result (λ copy. copy ≡ symbol.now) }
{
    Ok(match symbol {
        Symbol::Null => Symbol::Null,
        Symbol::Const(value) => Symbol::Const(value.copy(alloc)?),
        Symbol::Prop(prop) => Symbol::Prop(*prop),
        Symbol::End { assoc, first, prop } => Symbol::End {
            assoc: *assoc,
            first: *first,
            prop: *prop,
        },
    })
}
