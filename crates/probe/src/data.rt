mod judge;
mod refusal;
mod text;

pub use judge::{judge_entities, judge_tables};
pub use refusal::Refusal;
pub use text::{DataKind, put_judged};
