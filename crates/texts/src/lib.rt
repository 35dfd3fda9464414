//! What is printed, byte by byte: cases of views, verdicts, faults, breaches and changes.
#![tactic(auto)]

mod case_texts;
mod change_texts;
mod command_texts;

pub use case_texts::views_text;
pub use change_texts::{
    change_shape_text, circular_text, free_reference_text, new_breach_text, refused_text,
    row_change_text,
};
pub use command_texts::{
    accepted_text, differs_text, entity_breach_text, entity_shape_text, fail_text, file_text,
    illegal_text, limit_text, no_case_text, rule_text, table_breach_text, table_shape_text,
    usage_text,
};
