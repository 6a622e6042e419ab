// Rows of sheets made from lists of sporadic tasks.

#![tactic(auto)]

mod making;
mod task;

pub use making::{TaskRows, rows_of_tasks};
pub use task::{MakeRefusal, Task};
