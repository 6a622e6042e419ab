// The binder file: reading its bytes into a binder, and writing a binder as bytes.

#![tactic(auto)]

mod boot;
mod reading;
mod record;
mod refusal;
mod writing;

pub use boot::binder_verdict;
pub use reading::read_file;
pub use refusal::WriteRefusal;
pub use writing::write_file;
