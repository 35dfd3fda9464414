ghost use Rattle.std.specs.Prelude.{◌≡◌, ◌++◌, [], OnOk};
ghost use Rattle.std.specs.List.{cons_option};

use crate::{Memory, Seq};

/// Puts what was found at the end of a list.
pub fn put_found<T: Drop>(list: &mut Seq<T>, found: Option<T>) -> Result<(), Memory>
    ensures { OnOk result (list.new ≡ list.old ++ cons_option found []) }
{
    match found {
        None => Ok(()),
        Some(item) => list.push(item),
    }
}
