//! Regions: kinds of entities of a set that are stored alike, and what an entity of a region or a link writes, in symbols; with the laws by which each entity of a legal state has one region, and its pattern is what is demanded.
#![tactic(auto)]

mod pattern;
mod region;
pub mod region_laws;

pub use pattern::{Focus, Pattern, PatternRow, Symbol};
pub use region::Region;
pub use region_laws::{
    a_clash_is_two_symbols, agreement_is_by_regions, atoms_part_values, cells_are_settled,
    cells_are_symbols, cells_have_a_shape, domains_are_decided, fragments_write_their_symbols,
    patterns_are_demand, patterns_have_rows, regions_are_counted, regions_are_different,
    regions_are_possible, regions_part_entities, selection_is_by_regions, shown_is_decided,
    symbols_are_decided, symbols_are_possible, values_are_allowed,
};
