mod changed;
mod lines;
mod planned;
mod saved;

pub use changed::put_changed;
pub use planned::put_planned;
pub use saved::put_saved;
