//! What the commands print: verdicts on mappings, and what is wrong with files and with documents that hold data.

mod data;
mod verdicts;

pub use data::{
    differs_text, entity_breach_text, entity_shape_text, illegal_text, no_case_text,
    table_breach_text, table_shape_text,
};
pub use verdicts::{accepted_text, fail_text, file_text, limit_text, rule_text, usage_text};
