// A sheet of either kind, and a binder of up to eight of them.

#![tactic(auto)]

mod binder;
mod sheet;

pub use binder::SheetBinder;
pub use sheet::Sheet;
