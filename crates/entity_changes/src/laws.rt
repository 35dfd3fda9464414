ghost use Rattle.std.specs.Prelude.{All, List};
ghost use Rattle.cells.specs.declared.cells.Cells.{Cells};
ghost use Rattle.entity_changes.specs.Changes.{after, IsChange};
ghost use Rattle.entity_changes.specs.Refusals.{AreAccepted};
ghost use Rattle.entity_changes.specs.Touching.{DifferOnlyAt, TellsTouched};
ghost use Rattle.entity_changes.specs.declared.change.Change.{Change};
ghost use Rattle.entity_changes.specs.declared.touched.Touched.{Touched};
ghost use Rattle.round_trip.specs.Words.{EntityModel, IsSameState, IsState, State};

/// The law of what changes touch: nothing else differs after them, whatever the state, and whether a change is refused or not.
pub fn only_touched_units_change()
    ensures { (model : EntityModel) (cells : Cells) (state : State) (changes : List Change) (touched : Touched) → TellsTouched model cells changes touched
        → DifferOnlyAt model cells touched state (after model state changes) }
{}

/// The law that changes of a state of the model lead to a state of the model, whether they are refused or not.
pub fn changed_states_are_states()
    ensures { (model : EntityModel) (state : State) → IsState model state → (changes : List Change) → All (IsChange model) changes → IsState model (after model state changes) }
{}

/// The law that the order in a state plays no part: of two states with the same entities and links, what is accepted of the one is accepted of the other
/// (`accepted`), and the same changes lead to states with the same entities and links (`leads`).
pub fn same_states_change_alike()
    ensures accepted { (model : EntityModel) (one two : State) → IsState model one → IsState model two → IsSameState one two → (changes : List Change) → All (IsChange model) changes
        → AreAccepted model one changes → AreAccepted model two changes }
    ensures leads { (model : EntityModel) (one two : State) → IsState model one → IsState model two → IsSameState one two → (changes : List Change) → All (IsChange model) changes
        → IsSameState (after model one changes) (after model two changes) }
{}
