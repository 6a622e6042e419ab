ghost use Rattle.std.specs.Prelude.{◌≡◌};
ghost use Rattle.scheduler.specs.History.{inside};
ghost use Rattle.scheduler.specs.Table.{job_of};

use crate::job::Job;

// A window of a component, from a start to an end.
#[derive(Clone, Copy)]
pub(crate) struct Window {
    pub(crate) component: u32,
    pub(crate) start: u32,
    pub(crate) end: u32,
}

impl Window {
    // Whether the job is one of the component and lies in the window.
    pub(crate) fn holds(&self, job: &Job) -> bool
        ensures { result ≡ inside self.now.component self.now.start self.now.end (job_of job.now) }
    {
        job.component == self.component && self.start <= job.arrival && job.due <= self.end
    }
}
