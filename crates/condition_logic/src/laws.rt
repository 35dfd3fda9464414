ghost use Rattle.std.specs.Prelude.{[], ◌++◌, ◌↔◌, map};
ghost use Rattle.condition_logic.specs.Words.{CondOn, Entity, EntityModel, Fragment, LinkFragment, PropId, Row, Shows, ShowsLink, Value};
ghost use Rattle.condition_logic.specs.declared.expr.Expr.{Expr};
ghost use Rattle.condition_logic.specs.Readings.{of_entity, of_row};
ghost use Rattle.condition_logic.specs.Holds.{Holds, IsMeaning};
ghost use Rattle.condition_logic.specs.Mentions.{Compares, IsByParts, Names, NamesType};
ghost use Rattle.condition_logic.specs.Selecting.{SaysShown};

/// What expressions mean, of an entity and of a row: each of the seven forms by its parts.
pub fn expressions_mean_their_parts()
    ensures entities { (model : EntityModel) (entity : Entity) → IsMeaning (of_entity model entity) }
    ensures rows { (row : Row) → IsMeaning (of_row row) }
{}

/// What expressions name and compare: what one of their parts does.
pub fn expressions_name_by_their_parts()
    ensures names { (on : CondOn) → IsByParts (λ expr. Names expr on) }
    ensures compares { (prop : PropId) (value : Value) → IsByParts (λ expr. Compares expr prop value) }
    ensures types { IsByParts NamesType }
{}

/// What says of rows that they meet a fragment's conditions, and of a fragment of links that none of its key columns is null, says which rows
/// the fragment shows.
pub fn shown_rows_are_those_of_fragments()
    ensures entities { (fragment : Fragment) (expr : Expr) → SaysShown fragment.conds [] expr → (row : Row) → Holds (of_row row) expr ↔ Shows fragment row }
    ensures links { (fragment : LinkFragment) (expr : Expr) → SaysShown fragment.conds (map (λ pair. pair.col) (fragment.first ++ fragment.second)) expr
        → (row : Row) → Holds (of_row row) expr ↔ ShowsLink fragment row }
{}
