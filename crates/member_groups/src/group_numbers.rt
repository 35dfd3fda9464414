//! The groups of properties and columns, numbered from 0.

mod numbered;
mod numbers;

pub use numbered::Numbered;
pub use numbers::Numbers;
