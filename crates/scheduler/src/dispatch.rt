ghost use Rattle.std.specs.Prelude.{◌≡◌, ◌<◌, length, IfSome};
ghost use Rattle.scheduler.specs.History.{Counts};
ghost use Rattle.scheduler.specs.Order.{FirstOf};
ghost use Rattle.scheduler.specs.Policing.{first_of_two};
ghost use Rattle.scheduler.specs.Table.{job_in, ReadyIn, HeldIn};

use crate::policing::{Roster, is_held};
use demand::Binder;

// The open jobs sorted out: the one that runs, if any, and how many are held.
#[derive(Clone, Copy)]
pub(crate) struct Choice {
    pub(crate) first: Option<usize>,
    pub(crate) held: usize,
}

impl Roster<'_> {
    // The first of the job so far and job n, whose number is higher. Both are told by their numbers, as a tick answers a job.
    fn first_of_two(&self, first: Option<usize>, n: usize) -> Option<usize>
        requires { (n < length self.now.jobs.now) × (IfSome first (λ i. i < length self.now.jobs.now)) }
        ensures { result ≡ first_of_two self.now.jobs.now first n }
    {
        match first {
            None => Some(n),
            Some(i) if self.jobs[n].overtakes(&self.jobs[i]) => Some(n),
            Some(i) => Some(i),
        }
    }

    // Of the open jobs, those without a free unit are counted as held; of the others the one that goes first is to run. A loop by
    // hand, since one pass both counts and chooses.
    pub(crate) fn survey<B: Binder>(&self, binder: &B) -> Choice
        ensures first { FirstOf (job_in self.now.jobs.now) (ReadyIn (B.Binder.bound binder.now) self.now.jobs.now) result.first }
        ensures held { Counts (HeldIn (B.Binder.bound binder.now) self.now.jobs.now) (length self.now.jobs.now) result.held }
    {
        let windows = self.spent_windows(binder);
        let mut first = None;
        let mut held = 0;
        for (n, job) in self.jobs.iter().enumerate() {
            if job.is_open() {
                if is_held(windows.as_slice(), job) {
                    held += 1;
                } else {
                    first = self.first_of_two(first, n);
                }
            }
        }
        Choice { first, held }
    }
}
