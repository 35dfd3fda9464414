use crate::printing::put_text;
use edm_types::StoreModel;
use row_changes::RowChange;
use std::alloc::Global;
use texts::row_change_text;

/// Puts a line for each change of a row.
pub fn put_row_changes(
    alloc: Global,
    text: &mut String,
    store: &StoreModel,
    changes: &[RowChange],
) -> Option<()> {
    for change in changes {
        put_text(text, row_change_text(alloc, store, change))?;
    }
    Some(())
}
