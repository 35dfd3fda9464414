ghost use Rattle.std.specs.Prelude.{◌≡◌, IfOk};
ghost use Rattle.groupings.specs.least_fault.Least.{IsLeast};
ghost use Rattle.layouts.specs.Faults.{fault_cmp};
ghost use Rattle.ssdl_model.specs.ssdl_rules.StoreRules.{BreaksStoreRules};

use crate::ssdl_rules::columns::first_column_fault;
use crate::ssdl_rules::foreign::ForeignKeys;
use crate::ssdl_rules::keys::{first_key_column_fault, first_table_key_fault};
use csdl_associations::Sides;
use csdl_names::RawType;
use emc_base::Memory;
use groupings::{Finder, earlier};
use layouts::{Fault, first_at};
use std::alloc::Global;

/// V13 and V21 to V23 of a table's type.
#[derive(Clone, Copy)]
struct TableRules {}

impl Finder<RawType, Fault> for TableRules {
    ghost use Rattle.ssdl_model.specs.ssdl_rules.TableRules.{IsTableFault};

    ghost wrong = { λ _. IsTableFault };

    fn find(&self, alloc: Global, _place: usize, item: &RawType) -> Result<Option<Fault>, Memory> {
        let column = first_column_fault(alloc, item)?;
        let key = first_table_key_fault(alloc, item)?;
        let key_column = first_key_column_fault(alloc, item)?;
        Ok(earlier(column, earlier(key, key_column)))
    }
}

/// The least fault of a store's tables and foreign keys: V13 and V21 to V25. Foreign keys, whose rules have the greatest numbers, are only
/// looked at where no table breaks a rule. `Memory` comes where memory ran out.
pub fn first_store_fault(alloc: Global, sides: &Sides<'_>) -> Result<Option<Fault>, Memory>
    ensures { IfOk result (λ found. IsLeast fault_cmp (BreaksStoreRules sides.now.lookups.now.model.now) found) }
{
    let model = sides.lookups.model;
    match first_at(alloc, "EntityType", &TableRules {}, &model.types)? {
        Some(fault) => Ok(Some(fault)),
        None => {
            let search = ForeignKeys { sides };
            let found = first_at(alloc, "Association", &search, &model.associations)?;
            Ok(found)
        }
    }
}
