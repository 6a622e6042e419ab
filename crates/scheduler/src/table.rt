ghost use Rattle.std.specs.Prelude.{◌≡◌, ◌≤◌, length};

mod changing;

use crate::job::Job;

// How many jobs a table has room for.
pub(crate) const MOST_JOBS: usize = 96;

// The job table. A tick takes nothing from the heap, and a table has 96 records from the start, all marked empty, as `Scheduler::new`
// promises: so an array, of which the records below `count` hold a job.
#[derive(Clone, Copy)]
pub struct JobTable {
    pub(crate) jobs: [Job; MOST_JOBS],
    pub(crate) count: usize,
    ghost few: { count ≤ 96 },
    ghost slots: { length jobs ≡ 96 },
}
