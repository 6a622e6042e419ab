ghost use Rattle.std.specs.Prelude.{◌≡◌, ℕ, ◌<◌, ◌≤◌, length, slice_index_or, None, Decides};
ghost use Rattle.scheduler.specs.Policing.{Proper, SpentFrom, EarliestOf, OpenBy, FirstSpent, HeldBy};
ghost use Rattle.scheduler.specs.Table.{at, arrival_in, Ascending};

use crate::job::Job;
use crate::table::MOST_JOBS;
use crate::window::Window;
use arrayvec::ArrayVec;
use demand::Binder;

// The jobs of a table by their numbers: each is due after its arrival, and none arrived before one of a lower number.
// The binder is passed beside it, as a roster is of jobs alone.
#[derive(Clone, Copy)]
pub(crate) struct Roster<'a> {
    pub(crate) jobs: &'a [Job],
    ghost few: { length jobs.now ≤ 96 },
    ghost proper: { Proper jobs.now },
    ghost ascending: { Ascending jobs.now },
}

impl Roster<'_> {
    // Whether some open job of the component of `last` is due by its due tick.
    fn has_open_by(&self, last: &Job) -> bool
        ensures { Decides result (OpenBy self.now.jobs.now last.now.component last.now.due) }
    {
        self.jobs
            .iter()
            .any(|job| job.is_open() && job.is_due_by(last))
    }

    // The arrival of the first job from which to the due tick of `last` their component has spent its bound. Jobs are numbered in
    // the order of their arrivals, so going back from the last one, the units of each window are those of the one before and the
    // job's own.
    fn first_spent_start<B: Binder>(&self, binder: &B, last: &Job) -> Option<u32>
        ensures { EarliestOf (SpentFrom (B.Binder.bound binder.now) self.now.jobs.now last.now.component last.now.due) (arrival_in self.now.jobs.now) result }
    {
        let mut units = 0u64;
        let mut start = None;
        for job in self.jobs.iter().rev() {
            if job.is_due_by(last) {
                units += u64::from(job.used);
                if binder.bound(last.component, last.due - job.arrival) <= units {
                    start = Some(job.arrival);
                }
            }
        }
        start
    }

    // Where an open job of the component of `last` is due by its due tick: the spent window up to there that begins first.
    fn spent_window<B: Binder>(&self, binder: &B, last: &Job) -> Option<Window>
        ensures { FirstSpent (B.Binder.bound binder.now) self.now.jobs.now last.now result }
    {
        if !self.has_open_by(last) {
            return None;
        }
        let start = self.first_spent_start(binder, last)?;
        Some(Window {
            component: last.component,
            start,
            end: last.due,
        })
    }

    // For each job, in the order of the numbers: the spent window that ends where it is due, if any. A tick takes nothing from the heap,
    // so the vector has a fixed capacity.
    pub(crate) fn spent_windows<B: Binder>(&self, binder: &B) -> ArrayVec<Option<Window>, MOST_JOBS>
        ensures one_each { length result.items ≡ length self.now.jobs.now }
        ensures first_spent { (b : ℕ) → b < length self.now.jobs.now → FirstSpent (B.Binder.bound binder.now) self.now.jobs.now (at self.now.jobs.now b) (slice_index_or result.items b None) }
    {
        let mut windows = ArrayVec::new();
        for last in self.jobs {
            windows.push(self.spent_window(binder, last));
        }
        windows
    }
}

// Whether the job lies in one of the windows of its component.
pub(crate) fn is_held(windows: &[Option<Window>], job: &Job) -> bool
    ensures { Decides result (HeldBy windows.now job.now) }
{
    windows
        .iter()
        .any(|window| window.is_some_and(|window| window.holds(job)))
}
