//! Table documents: rows for each table of a store, as JSON. They are read, or told to be of another shape at their first place where that
//! is so.
//!
//! A table document is an object whose members are named by tables; a table without a member is empty. Each member is an array of rows. A
//! row is an object that has one member for each column of its table, and no other. A cell that holds a whole number, or a number of an
//! enumeration, is a JSON number without a fraction or an exponent that fits 64 bits with a sign; true or false is just that; a text is a
//! text; bytes are a text of two hexadecimal digits for each, in either case; null is null, whatever the column holds. Whether a value lies
//! in its column's domain, and whether null is allowed there, is no matter of shape.

mod read;
mod shape;
mod tables;

pub use tables::tables_of_doc;
