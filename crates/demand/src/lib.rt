// Components that share one core: binders, their laws, and the admission test over any of them.

#![tactic(auto)]

mod admission;
mod binder;
mod refusal;
mod side_by_side;
mod verdict;

pub use admission::{
    Slack, admission_test, admit, tightest, total_demand, total_gain, verdict_numbers,
};
pub use binder::Binder;
pub use refusal::Refusal;
pub use side_by_side::SideBySide;
pub use verdict::TestRefusal;
