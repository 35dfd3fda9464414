//! Compiles a mapping: three documents are accepted where every legal state round-trips; otherwise the broken rule or the passed limit is
//! named, or a legal state that fails is shown.
#![tactic(auto)]

mod accepted;
mod compiled;
mod deciding;
mod documents;
mod loading;
mod mapping_verdict;
mod reading;
mod saving;
mod storing;
mod verdict;
mod viewing;

pub use crate::mapping_verdict::Failure;
pub use accepted::AcceptedMapping;
pub use compiled::{Compiled, CompiledParts, MappingViews, compile};
pub use data_documents::ShapeFault;
pub use deciding::decide;
pub use documents::{read_changes, read_entities, read_tables};
pub use edm_types::{
    Breach, EntityModel, LimitFault, LimitKind, RuleFault, Schema, VocabFault, VocabFile,
};
pub use entity_changes::{Change, Reason};
pub use entity_state::EntityState;
pub use json_form::{Doc, DocFault, place_text, quoted};
pub use loading::laws::{what_is_printed_is_loaded, what_is_stored_is_loaded};
pub use loading::{LoadFault, load};
pub use mapping_verdict::first_failure;
pub use reading::{one_rule, read};
pub use round_trip::FailKind;
pub use row_changes::RowChange;
pub use saving::laws::what_is_accepted_is_saved;
pub use saving::{SaveFault, Saved, save};
pub use storing::{StoreFault, store_all};
pub use table_files::Tables;
pub use verdict::{Refusal, Verdict, what_is_accepted_is_not_refused};
pub use viewing::views_all;
