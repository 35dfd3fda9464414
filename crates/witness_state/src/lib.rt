//! Legal entity states that fail, whole, as the reason why a mapping is not accepted: for each conflict, one.
#![tactic(auto)]

mod differing;
mod failure;
mod failures;
mod fragment_places;
mod link_failures;
mod one_state;
mod places;
mod region_values;
mod small_links;
mod small_regions;
mod two_states;

pub use failure::Failure;
pub use failures::build;
pub use region_values::{
    clash_entity, default_part, default_value, first_free_of, is_among, key_props, lost_entities,
    props_of, rival_entities, some_value, usual_entity,
};
pub use small_links::{
    EndAt, at_first, at_second, fragment_of, host_row_place, link_cell_place, link_keys_place,
    link_of, link_state, pair_of_link_states, placed_at, plain_link, shared_cell_place,
    shared_state, unmapped_place, value_beside, written_values,
};
pub use small_regions::{
    Gathered, Hosting, add_keys, add_principals, gather, leaving_states, linked_hosts,
    pair_of_states, region_state,
};
