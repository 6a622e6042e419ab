ghost use Rattle.std.specs.Prelude.{◌≡◌, map, length};
ghost use Rattle.scheduler.specs.History.{Counts};
ghost use Rattle.scheduler.specs.Steps.{ended, ending_answer, is_due, cut_at, cut_due, DueIn};

use crate::calls::CallRefusal;
use crate::job::{Ending, Job, JobStatus};

// Ends an open job, and answers the units that it has used; a job that has ended is refused and stays. One `match` on how the job stands
// and what ends it, so that every case is seen.
pub(crate) fn end_job(job: &mut Job, ending: Ending) -> Result<u32, CallRefusal>
    ensures answer { result ≡ ending_answer job.old }
    ensures after { job.new ≡ ended ending job.old }
{
    match (job.status, ending) {
        (JobStatus::Open, Ending::Finish) => {
            job.status = JobStatus::Finished;
            Ok(job.used)
        }
        (JobStatus::Open, Ending::Due) => {
            job.status = JobStatus::Cut;
            Ok(job.used)
        }
        (JobStatus::Empty | JobStatus::Finished | JobStatus::Cut, _) => Err(CallRefusal::NotOpen),
    }
}

// Cuts the job if it is open and due by the clock; whether it did.
fn cut_if_due(job: &mut Job, clock: u32) -> bool
    ensures answer { result ≡ is_due clock job.old }
    ensures after { job.new ≡ cut_at clock job.old }
{
    job.due <= clock && end_job(job, Ending::Due).is_ok()
}

// Cuts each open job that is due by the clock, and counts them.
pub(crate) fn cut_all(jobs: &mut [Job], clock: u32) -> usize
    ensures after { jobs.new ≡ cut_due clock jobs.old }
    ensures count { Counts (DueIn clock jobs.old) (length jobs.old) result }
{
    let mut cut = 0;
    for job in jobs.iter_mut() {
        if cut_if_due(job, clock) {
            cut += 1;
        }
    }
    cut
}
