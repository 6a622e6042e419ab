ghost use Rattle.std.specs.Prelude.{◌≡◌};
ghost use Rattle.scheduler.specs.Records.{arrive_refused, finish_refused, tick_refused};
ghost use Rattle.scheduler.specs.Steps.{unless};

use crate::calls::CallRefusal;
use crate::scheduler::Scheduler;
use demand::Binder;

// Where the clock ends.
const CLOCK_END: u32 = 1_000_000;

// The most ticks from an arrival to its due tick.
const LONGEST_DEADLINE: u32 = 4096;

impl<B: Binder> Scheduler<B> {
    // Refuses an arrive that the rules refuse: each that comes where a tick would be refused, and some more.
    pub(crate) fn judge_arrive(&self, component: u32, deadline: u32) -> Result<(), CallRefusal>
        ensures { result ≡ unless (arrive_refused B.Binder self.now component deadline) tt }
    {
        self.judge_tick()?;
        if component >= self.binder.count() {
            Err(CallRefusal::NoComponent)
        } else if !(1..=LONGEST_DEADLINE).contains(&deadline) {
            Err(CallRefusal::DeadlineOutOfRange)
        } else if self.table.is_full() {
            Err(CallRefusal::TableFull)
        } else {
            Ok(())
        }
    }

    // Refuses a finish that the rules refuse.
    pub(crate) fn judge_finish(&self, job: usize) -> Result<(), CallRefusal>
        ensures { result ≡ unless (finish_refused self.now job) tt }
    {
        if self.verdict.is_err() {
            return Err(CallRefusal::NotAdmitted);
        }
        match self.table.records().get(job) {
            None => Err(CallRefusal::NoJob),
            Some(job) if !job.is_open() => Err(CallRefusal::NotOpen),
            Some(_) => Ok(()),
        }
    }

    // Refuses a tick that the rules refuse.
    pub(crate) fn judge_tick(&self) -> Result<(), CallRefusal>
        ensures { result ≡ unless (tick_refused self.now) tt }
    {
        if self.verdict.is_err() {
            Err(CallRefusal::NotAdmitted)
        } else if self.clock == CLOCK_END {
            Err(CallRefusal::ClockEnded)
        } else {
            Ok(())
        }
    }
}
