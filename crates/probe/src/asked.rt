/// What is asked of documents. M is a model, S a store, P a mapping.
#[derive(Clone, Copy)]
pub enum Asked {
    /// Of M and entities: whether these are legal.
    Entities,
    /// Of S and tables: whether these are legal.
    Tables,
    /// Of M and entities: the state, printed.
    State,
    /// Of M and a document: what it holds as an entity, as a key of each type, and as a link of each association set.
    Nodes,
    /// Of M: the types below each type.
    Below,
    /// Of M: how many links each association set has, once one of the second is added.
    Added,
    /// Of M, S and P: the cells, made once.
    Cells,
    /// The same, made ten times more.
    CellsAgain,
    /// Whose each table is, and where links stand.
    Owners,
    /// How many regions each set has, where so many are allowed, or fewer.
    Counts,
    /// How many regions each set has, with their patterns.
    Regions,
    /// The rows of the links of each association set.
    Links,
    /// The conflict of each kind at each set.
    Conflicts,
    /// What regions and links force.
    Forced,
    /// What the first region of the first set forces, many times.
    ForcedAgain,
    /// The foreign key that dangles.
    Dangling,
    /// The failure that is shown.
    Failure,
    /// The query views.
    Views,
    /// Of M, S, P and entities: which entities each fragment selects.
    Selected,
    /// The links that each entity hosts, and its region.
    Found,
    /// The rows of each entity and each link.
    Rows,
    /// Of M, S, P and tables: which rows each fragment shows.
    Shown,
    /// The entities of the first set at the keys 1 to 3.
    Keys,
    /// All entities of the first set, lent.
    Lent,
    /// Of S, tables and tables: the changes of rows from the one to the others.
    Planned,
    /// Of M, entities and changes: the state afterwards, printed.
    Changed,
    /// Of M, S, P, tables and changes: how many steps saving takes, the changes of rows and the tables afterwards.
    Saved,
}

impl Asked {
    /// What a word asks.
    pub fn of(word: &str) -> Option<Asked> {
        let asked = Asked::of_models(word);
        if asked.is_some() {
            return asked;
        }
        let asked = Asked::of_mappings(word);
        if asked.is_some() {
            return asked;
        }
        let asked = Asked::of_data(word);
        if asked.is_some() {
            return asked;
        }
        Asked::of_changes(word)
    }

    // The same of a model, or of a store and its tables.
    fn of_models(word: &str) -> Option<Asked> {
        match word {
            "entities" => Some(Asked::Entities),
            "tables" => Some(Asked::Tables),
            "state" => Some(Asked::State),
            "nodes" => Some(Asked::Nodes),
            "below" => Some(Asked::Below),
            "added" => Some(Asked::Added),
            _ => None,
        }
    }

    // The same of a mapping.
    fn of_mappings(word: &str) -> Option<Asked> {
        match word {
            "cells" => Some(Asked::Cells),
            "cells-again" => Some(Asked::CellsAgain),
            "owners" => Some(Asked::Owners),
            "counts" => Some(Asked::Counts),
            "regions" => Some(Asked::Regions),
            "links" => Some(Asked::Links),
            "conflicts" => Some(Asked::Conflicts),
            "forced" => Some(Asked::Forced),
            "forced-again" => Some(Asked::ForcedAgain),
            "dangling" => Some(Asked::Dangling),
            "failure" => Some(Asked::Failure),
            "views" => Some(Asked::Views),
            _ => None,
        }
    }

    // The same of a mapping and data.
    fn of_data(word: &str) -> Option<Asked> {
        match word {
            "selected" => Some(Asked::Selected),
            "found" => Some(Asked::Found),
            "rows" => Some(Asked::Rows),
            "shown" => Some(Asked::Shown),
            "keys" => Some(Asked::Keys),
            "lent" => Some(Asked::Lent),
            _ => None,
        }
    }

    // The same of changes.
    fn of_changes(word: &str) -> Option<Asked> {
        match word {
            "planned" => Some(Asked::Planned),
            "changed" => Some(Asked::Changed),
            "saved" => Some(Asked::Saved),
            _ => None,
        }
    }
}
