//! Faults of shape of JSON documents that hold data: at which place a document is of another form than it should be, and which such place
//! comes first. And the value that a node gives for a kind.

mod fault;
mod nodes;
mod place;
mod search;
mod step_order;
mod value;

pub use fault::ShapeFault;
pub use nodes::{first_in_array, first_in_object, first_lack, here_if};
pub use place::{ShapePlace, ShapeStep};
pub use search::{MemberSearch, NodeSearch};
pub use value::value_of_node;
