// A sheet of one line: made from its fields, read and written, and asked for its bound.

#![tactic(auto)]

mod asking;
mod bounds;
mod making;
mod reading;
mod sheet;

pub use sheet::LineSheet;
