//! States with links of an association, and the places of failures of links.

mod ends;
mod host_rows;
mod places;
mod states;
mod supporting;
mod written;

pub use ends::{EndAt, at_first, at_second, link_of, placed_at, plain_link};
pub use places::{
    host_row_place, link_cell_place, link_keys_place, shared_cell_place, unmapped_place,
};
pub use states::{link_state, pair_of_link_states, shared_state};
pub use written::{fragment_of, value_beside, written_values};
