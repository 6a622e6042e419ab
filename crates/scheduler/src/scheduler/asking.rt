ghost use Rattle.std.specs.Prelude.{◌≡◌, ◌<◌, ◌≤◌, length, IfSome};
ghost use Rattle.demand.specs.Verdicts.{verdict_numbers};
ghost use Rattle.scheduler.specs.History.{History};
ghost use Rattle.scheduler.specs.Records.{jobs_of, Records};
ghost use Rattle.scheduler.specs.Table.{job_record, InRange};

use crate::job::Job;
use crate::scheduler::Scheduler;
use demand::{Binder, verdict_numbers};

impl<B: Binder> Scheduler<B> {
    // The admission test's verdict on the binder. The rules give it as a pair, a number and a length: (0, 0) for admitted.
    pub fn verdict(&self) -> (u32, u32)
        ensures { result ≡ verdict_numbers self.now.verdict }
    {
        verdict_numbers(self.verdict)
    }

    // How many ticks were accepted.
    pub fn clock(&self) -> u32
        ensures value { result ≡ self.now.clock }
        ensures early { result ≤ 1000000 }
    {
        self.clock
    }

    // How many jobs were accepted.
    pub fn job_count(&self) -> usize
        ensures value { result ≡ length (jobs_of self.now) }
        ensures few { result ≤ 96 }
    {
        self.table.records().len()
    }

    // The record of job n, if there is such a job.
    pub fn job(&self, n: usize) -> Option<Job>
        ensures value { result ≡ job_record (jobs_of self.now) n }
        ensures in_range { IfSome result (InRange self.now.clock n) }
        ensures known_component { (h : History) → Records B.Binder self.now h → IfSome result (λ j. j.component < B.Binder.count self.now.binder) }
    {
        self.table.records().get(n).copied()
    }
}
