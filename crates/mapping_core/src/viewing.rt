ghost use Rattle.std.specs.Prelude.{IfOk};
ghost use Rattle.mapping_core.specs.ViewsText.{IsViewsText};

use crate::compiled::Compiled;
use emc_base::{Bin, Memory};
use std::alloc::Global;
use texts::views_text;

/// The text of the query views of an accepted mapping: the cases of each entity set, and of each joined association. `Memory` comes where memory ran out.
pub fn views_all(alloc: Global, compiled: &Compiled) -> Result<Bin, Memory>
    ensures { IfOk result (IsViewsText compiled.now) }
{
    let made = compiled.parts();
    views_text(alloc, &made.parts, made.query_views.cases())
}
