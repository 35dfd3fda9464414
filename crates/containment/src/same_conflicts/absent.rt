ghost use Rattle.std.specs.Prelude.{◌≡◌, ◌↔◌, IsTrue, find, not, true};
ghost use Rattle.std.specs.List.{list_any};
ghost use Rattle.std.specs.Option.{option_copied};
ghost use Rattle.containment.specs.same_conflicts.Written.{leaves_no_row};

use crate::same_conflicts::written::Written;

/// The first of these regions whose entities write no row.
pub fn first_absent<'w, 'r>(written: &'w [Written<'r>]) -> Option<&'w Written<'r>>
    ensures { option_copied result ≡ find leaves_no_row written.now }
{
    written.iter().find(|one| leaves_no_row(one))
}

// Whether entities of a region write no row.
fn leaves_no_row(one: &Written<'_>) -> bool
    ensures { result ≡ leaves_no_row one.now }
{
    one.pattern.rows.is_empty()
}
