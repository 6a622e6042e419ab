// What a component can declare, as rows or as a line: the fields and their rules, the faults in them, and what every kind of
// sheet has.

#![tactic(auto)]

mod fault;
mod fields;
mod kind;
mod line;
mod row;

pub use fault::{FileFault, Location, RecordStart};
pub use fields::{accept, is_power, lies_in};
pub use kind::SheetKind;
pub use line::Line;
pub use row::Row;
