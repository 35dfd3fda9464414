ghost use Rattle.std.specs.Prelude.{◌≡◌};
ghost use Rattle.std.specs.Option.{option_copied};
ghost use Rattle.row_plans.specs.Altered.{differ};

use edm_types::Row;

// Whether only one of two rows is there, or both are, and a cell differs.
pub(super) fn rows_differ(old: Option<&Row>, new: Option<&Row>) -> bool
    ensures { result ≡ differ (option_copied old.entry) (option_copied new.entry) }
{
    match (old, new) {
        (None, None) => false,
        (Some(before), Some(afterwards)) => before.cells != afterwards.cells,
        _ => true,
    }
}
