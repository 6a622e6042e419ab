// A policed earliest-deadline scheduler over any binder, whose calls promise that every history of calls and answers obeys two
// laws.

#![tactic(auto)]

ghost use Rattle.std.specs.Prelude.{◌≡◌};
ghost use Rattle.scheduler.specs.Rules.{plan_of, admitted, AlwaysCertified, AnAnswer, OneAnswer, DecidedAtJobs};

use demand::{Binder, admit};

mod calls;
mod dispatch;
mod ending;
mod job;
mod policing;
mod running;
mod scheduler;
mod table;
mod window;

pub use calls::{Call, CallRefusal, Event, Ticked};
pub use job::{EMPTY, Job, JobStatus};
pub use running::run;
pub use scheduler::Scheduler;

// Whether the binder is admitted. Whatever the answer, of every history of calls over the binder whose answers follow the rules:
// it obeys both laws, each call has an answer after it, and only one; and whether a job has a free unit is decided by the windows
// from job to job.
pub fn certifies<B: Binder>(binder: &B) -> bool
    ensures verdict { result ≡ admitted (plan_of B.Binder binder.now) }
    ensures certified { AlwaysCertified (plan_of B.Binder binder.now) }
    ensures an_answer { AnAnswer (plan_of B.Binder binder.now) }
    ensures one_answer { OneAnswer (plan_of B.Binder binder.now) }
    ensures decided_at_jobs { DecidedAtJobs (plan_of B.Binder binder.now) }
{
    admit(binder).is_ok()
}
