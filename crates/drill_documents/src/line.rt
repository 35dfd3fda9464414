ghost use Rattle.std.specs.Prelude.{◌≡◌, IfOk};
ghost use Rattle.drill_documents.specs.Line.{drill_line};

use emc_base::{Memory, Txt};
use std::alloc::Global;

/// The line that tells what was counted: entities and links of the state, rows of its tables, changes, and changes of rows. `Memory` comes where memory
/// ran out.
#[tactic(auto, unfolding(crate::specs::Line::drill_line))]
pub fn drill_line(
    alloc: Global,
    entities: u64,
    links: u64,
    rows: u64,
    changes: u64,
    row_changes: u64,
) -> Result<Txt, Memory>
    ensures { IfOk result (λ text. text ≡ drill_line entities links rows changes row_changes) }
{
    let text = format!(in alloc;
        "drill entities={entities} links={links} rows={rows} changes={changes} rowchanges={row_changes}\n"
    )?;
    Ok(Txt::from_string(text))
}
