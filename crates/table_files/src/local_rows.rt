ghost use Rattle.std.specs.Prelude.{◌≡◌, List, Option, IfOk, option_map};
ghost use Rattle.emc_base.specs.Faults.{one_more};
ghost use Rattle.emc_base.specs.declared.ids.SetId.{SetId};
ghost use Rattle.emc_base.specs.declared.ids.AssocId.{AssocId};
ghost use Rattle.edm_types.specs.declared.data.Entity.{Entity};
ghost use Rattle.edm_types.specs.declared.data.Link.{Link};
ghost use Rattle.edm_types.specs.declared.data.Hosted.{Hosted};
ghost use Rattle.table_files.specs.declared.tables.TableRow.{TableRow};

use crate::tables::TableRow;
use edm_types::{Entity, Hosted, Link};
use emc_base::{AssocId, Ledger, Memory, Seq, SetId};
use std::alloc::Global;

/// The rows that one entity demands, or one link, by itself.
pub trait LocalRows {
    /// The rows that an entity of a set and the links that it hosts demand.
    ghost rows: { Self → SetId → Entity → List Hosted → List TableRow };

    /// The row that each link of an association set demands by itself, where that is a joined one; none of its links does elsewhere.
    ghost joined_row: { Self → AssocId → Option (Link → TableRow) };

    /// The rows that an entity and the links that it hosts demand. Each call counts one step, also one that answers `Memory`,
    /// which comes where memory ran out.
    fn local<L: Ledger>(
        &self,
        alloc: Global,
        set: SetId,
        entity: &Entity,
        links: &Seq<Hosted>,
        steps: &mut L,
    ) -> Result<Seq<TableRow>, Memory>
        ensures demanded { IfOk result (λ list. list ≡ rows self.now set entity.now links.now) }
        ensures counted { L.count steps.new ≡ one_more (L.count steps.old) };

    /// The row that a link demands by itself; `None` comes exactly where the association set isn't joined, whatever the link, and
    /// `Memory` where memory ran out.
    fn joined(&self, alloc: Global, assoc: AssocId, link: &Link) -> Result<Option<TableRow>, Memory>
        ensures { IfOk result (λ row. row ≡ option_map (λ of_link. of_link link.now) (joined_row self.now assoc)) };
}
