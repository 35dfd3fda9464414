use emc_base::{AssocId, ColId, PropId, TableId, Txt};
use regions::{Focus, Region, Symbol};

/// What makes some legal entity state fail.
#[derive(Drop)]
pub enum Conflict {
    /// A cell is to hold the values of two symbols that can differ. Of kind `Clash`.
    Clash {
        focus: Focus,
        table: TableId,
        col: ColId,
        one: Symbol,
        two: Symbol,
    },
    /// Links of the association are hosted, and an entity may have any number of partners by it: each is to stand in the same cells. Of kind `Clash`.
    ManyLinks(AssocId),
    /// A cell of a column that isn't nullable is to hold the value of a symbol that can be null; or nothing, which is told as `Symbol::Null`.
    /// Of kind `Null`.
    NullIn {
        focus: Focus,
        table: TableId,
        col: ColId,
        symbol: Symbol,
    },
    /// The fragment at this place selects the focus and doesn't show its row, or shows this and doesn't select the focus. Of kind `Disagrees`.
    Disagree {
        focus: Focus,
        place: Txt,
    },
    /// Entities of the region write no row. Of kind `Same`.
    Absent(Region),
    /// Entities of two regions of one set can write the same rows. Of kind `Same`.
    Rival {
        one: Region,
        two: Region,
    },
    /// A property that may have several values is written to no column. Of kind `Same`.
    Lost {
        region: Region,
        prop: PropId,
    },
    /// No link fragment maps the independent association: its links are written nowhere. Of kind `Same`.
    Unmapped(AssocId),
}
