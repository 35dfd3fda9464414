ghost use Rattle.std.specs.Prelude.{◌≡◌, IfOk};
ghost use Rattle.csdl_names.specs.csdl_lists.References.{names_in};
ghost use Rattle.ssdl_model.specs.ssdl_lists.Tables.{table_in, table_of};
ghost use Rattle.ssdl_model.specs.ssdl_making.StoreMeaning.{store_meaning};

use crate::ssdl_making::foreign::keys_in;
use crate::ssdl_making::tables::tables_in;
use csdl_names::Lookups;
use edm_types::StoreModel;
use emc_base::{Memory, both};
use std::alloc::Global;

/// The store that a document means, from its lists, and the first table of each type. `Memory` comes where memory ran out, and where a
/// number is past those of a store (an id or a bound of 32 bits).
pub fn make_store(
    alloc: Global,
    lookups: &Lookups<'_>,
    tables: &[Option<usize>],
) -> Result<StoreModel, Memory>
    requires { table_in tables.now ≡ table_of (names_in lookups.now.model.now) lookups.now.model.now }
    ensures { IfOk result (λ made. made ≡ store_meaning lookups.now.model.now) }
{
    let model = lookups.model;
    let names = both(
        model.namespace.copy(alloc),
        model.container.name.copy(alloc),
    );
    let lists = both(tables_in(alloc, lookups), keys_in(alloc, lookups, tables));
    let ((namespace, container), (tables, keys)) = both(names, lists)?;
    Ok(StoreModel {
        namespace,
        container,
        tables,
        keys,
    })
}
