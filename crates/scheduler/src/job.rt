ghost use Rattle.std.specs.Prelude.{◌≡◌};
ghost use Rattle.scheduler.specs.Policing.{due_by, overtakes};
ghost use Rattle.scheduler.specs.Table.{is_open};

// How a job record stands: no job in it yet, open, finished by its component, or cut at its deadline. A table has all its records
// from the start, so one without a job is marked empty.
#[derive(Clone, Copy, PartialEq, Eq, Debug)]
pub enum JobStatus {
    Empty,
    Open,
    Finished,
    Cut,
}

// What ends an open job: its component finishes it, or its due tick has come.
#[derive(Clone, Copy, PartialEq, Eq, Debug)]
pub enum Ending {
    Finish,
    Due,
}

// One record of the job table. A job is numbered in the order of acceptance, arrives at a tick and is due at a later one, and has
// used so many units of core time.
#[derive(Clone, Copy, PartialEq, Eq, Debug)]
pub struct Job {
    pub number: usize,
    pub component: u32,
    pub arrival: u32,
    pub due: u32,
    pub used: u32,
    pub status: JobStatus,
}

// A record without a job.
pub const EMPTY: Job = Job {
    number: 0,
    component: 0,
    arrival: 0,
    due: 0,
    used: 0,
    status: JobStatus::Empty,
};

impl Job {
    // Whether the job is open.
    pub(crate) fn is_open(&self) -> bool
        ensures { result ≡ is_open self.now.status }
    {
        self.status == JobStatus::Open
    }

    // Whether the job is one of the component of `last` and due by its due tick.
    pub(crate) fn is_due_by(&self, last: &Job) -> bool
        ensures { result ≡ due_by last.now.component last.now.due self.now }
    {
        self.component == last.component && self.due <= last.due
    }

    // Whether the job goes before one of a lower number.
    pub(crate) fn overtakes(&self, lower: &Job) -> bool
        ensures { result ≡ overtakes self.now lower.now }
    {
        (self.due, self.component) < (lower.due, lower.component)
    }
}
