ghost use Rattle.std.specs.Prelude.{◌≡◌, ◌+◌, ◌-◌, ◌^◌, ◌<◌, [], ◌∷◌, ◌++◌, length, replicate, nat_le, IfSome, slice_set};
ghost use Rattle.scheduler.specs.History.{Counts};
ghost use Rattle.scheduler.specs.Steps.{records, ended, ending_answer, cut_due, DueIn, with_used, with_unit};
ghost use Rattle.scheduler.specs.Table.{at, empty_entry};

use crate::calls::CallRefusal;
use crate::ending::{cut_all, end_job};
use crate::job::{EMPTY, Ending, Job};
use crate::table::{JobTable, MOST_JOBS};

impl JobTable {
    // The table without a job, every record marked empty.
    pub(crate) fn new() -> JobTable
        ensures no_job { records result ≡ [] }
        ensures all_empty { result.jobs ≡ replicate 96 empty_entry }
    {
        JobTable {
            jobs: [EMPTY; MOST_JOBS],
            count: 0,
        }
    }

    // The records that hold a job, by their numbers.
    pub(crate) fn records(&self) -> &[Job]
        ensures value { result.now ≡ records self.now }
        ensures len { length result.now ≡ self.now.count }
    {
        &self.jobs[0..self.count]
    }

    // Whether there is no room for a job more.
    pub(crate) fn is_full(&self) -> bool
        ensures { result ≡ nat_le 96 (length (records self.now)) }
    {
        self.count == MOST_JOBS
    }

    // One job more.
    pub(crate) fn add(&mut self, job: Job)
        requires { self.old.count < 96 }
        ensures { records self.new ≡ records self.old ++ (job ∷ []) }
    {
        self.jobs[self.count] = job;
        self.count += 1;
    }

    // Ends job n, if it is open.
    pub(crate) fn end(&mut self, n: usize, ending: Ending) -> Result<u32, CallRefusal>
        requires { n < self.old.count }
        ensures answer { result ≡ ending_answer (at (records self.old) n) }
        ensures after { records self.new ≡ slice_set (records self.old) n (ended ending (at (records self.old) n)) }
    {
        end_job(&mut self.jobs[n], ending)
    }

    // Cuts each open job that is due by the clock, and counts them.
    pub(crate) fn cut_due(&mut self, clock: u32) -> usize
        ensures after { records self.new ≡ cut_due clock (records self.old) }
        ensures count { Counts (DueIn clock (records self.old)) (length (records self.old)) result }
    {
        let count = self.count;
        cut_all(&mut self.jobs[0..count], clock)
    }

    // Job n has used one unit more.
    pub(crate) fn use_unit(&mut self, n: usize)
        requires { (n < self.old.count) × ((at (records self.old) n).used < 2 ^ 32 - 1) }
        ensures { records self.new ≡ slice_set (records self.old) n (with_used (at (records self.old) n) ((at (records self.old) n).used + 1)) }
    {
        let job = &mut self.jobs[n];
        job.used += 1;
    }

    // The job that runs, if any, has used one unit more.
    pub(crate) fn run(&mut self, first: Option<usize>)
        requires { IfSome first (λ n. (n < self.old.count) × ((at (records self.old) n).used < 2 ^ 32 - 1)) }
        ensures { records self.new ≡ with_unit first (records self.old) }
    {
        if let Some(n) = first {
            self.use_unit(n);
        }
    }
}
