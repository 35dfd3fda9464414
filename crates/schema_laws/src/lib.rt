//! Laws of every sound schema: its types stand in one forest, its keys take short values, what a state demands is a computed list, and where no state fails each is kept.
#![tactic(auto)]

pub mod kept_states;
pub mod same_states;
pub mod short_values;
pub mod sound_demand;
pub mod sound_forests;
pub mod sound_types;
pub mod state_demand;

pub use kept_states::{every_state_is_kept, states_are_told_apart};
pub use same_states::the_same_state_is_as_legal;
pub use short_values::{fresh_values_are_different, short_values_fit};
pub use sound_demand::{
    a_clash_is_decided, a_disagreement_stands_at_a_row, a_legal_state_has_legal_tables,
    a_pairing_is_one_to_one, a_state_without_a_clash_has_tables, demand_is_local,
    each_table_has_one_owner, round_tripping_states_are_kept, tables_are_one_up_to_order,
    tuples_are_decided_at_their_key, tuples_of_one_key_are_one, types_are_decided,
    writings_are_a_list,
};
pub use sound_forests::a_sound_forest_is_whole;
pub use sound_types::{
    a_sound_type_has_each_name_once, a_sound_type_has_each_property_once, derivation_is_decided,
};
pub use state_demand::{
    agreement_is_by_rows, clash_is_decided, links_are_local, rows_are_local, selection_is_decided,
    tables_are_good, tables_are_made, tables_are_one, writings_are_listed,
};
