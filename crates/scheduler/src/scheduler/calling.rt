ghost use Rattle.std.specs.Prelude.{◌≡◌, [], ◌∷◌, replicate, Err};
ghost use Rattle.demand.specs.Admission.{admission};
ghost use Rattle.scheduler.specs.History.{History};
ghost use Rattle.scheduler.specs.Needs.{NeedsMetBy};
ghost use Rattle.scheduler.specs.Records.{jobs_of, SameBinder, Arrives, Finishes, TicksOn, Performs, Records, CertifiedBy};
ghost use Rattle.scheduler.specs.Recording.{event_of};
ghost use Rattle.scheduler.specs.Rules.{call_of};
ghost use Rattle.scheduler.specs.Table.{empty_entry};
ghost use Rattle.scheduler.specs.declared.calls.CallRefusal.{CallRefusal};
ghost use Rattle.scheduler.specs.declared.calls.Call.TheVariants.{Arrive, Finish, Tick};
ghost use Rattle.scheduler.specs.declared.calls.Event.TheVariants.{Arrived, Finished, Refused};
ghost use Rattle.scheduler.specs.declared.calls.Event.TheVariants as event;

use crate::calls::{Call, CallRefusal, Event, Ticked};
use crate::job::{Ending, Job, JobStatus};
use crate::policing::Roster;
use crate::scheduler::Scheduler;
use crate::table::JobTable;
use demand::{Binder, admit};

impl<B: Binder> Scheduler<B> {
    // A scheduler over the binder before any call, with the admission test's verdict.
    pub fn new(binder: B) -> Scheduler<B>
        ensures same_binder { result.binder ≡ binder }
        ensures verdict { result.verdict ≡ admission (B.Binder.count binder) (B.Binder.bound binder) (B.Binder.gain binder) }
        ensures clock { result.clock ≡ 0 }
        ensures no_job { jobs_of result ≡ [] }
        ensures all_empty { result.table.jobs ≡ replicate 96 empty_entry }
        ensures recorded { Records B.Binder result [] }
    {
        let verdict = admit(&binder);
        Scheduler {
            binder,
            verdict,
            clock: 0,
            table: JobTable::new(),
        }
    }

    // A job of the component arrives, due `deadline` ticks from now. The answer is its number. What every call promises its caller
    // stands on each of the four.
    pub fn arrive(&mut self, component: u32, deadline: u32) -> Result<usize, CallRefusal>
        ensures step { Arrives B.Binder self.old component deadline result self.new }
        ensures same_binder { SameBinder self.old self.new }
        ensures refused_changes_nothing { (e : CallRefusal) → result ≡ Err e → self.new ≡ self.old }
        ensures recorded { (h : History) → Records B.Binder self.old h → Records B.Binder self.new (event_of (Arrive component deadline) (Arrived component deadline) result ∷ h) }
        ensures certified { CertifiedBy B.Binder self.new }
    {
        self.judge_arrive(component, deadline)?;
        let number = self.table.count;
        self.table.add(Job {
            number,
            component,
            arrival: self.clock,
            due: self.clock + deadline,
            used: 0,
            status: JobStatus::Open,
        });
        Ok(number)
    }

    // The job is finished. The answer is the units that it has used.
    pub fn finish(&mut self, job: usize) -> Result<u32, CallRefusal>
        ensures step { Finishes self.old job result self.new }
        ensures same_binder { SameBinder self.old self.new }
        ensures refused_changes_nothing { (e : CallRefusal) → result ≡ Err e → self.new ≡ self.old }
        ensures recorded { (h : History) → Records B.Binder self.old h → Records B.Binder self.new (event_of (Finish job) (Finished job) result ∷ h) }
        ensures certified { CertifiedBy B.Binder self.new }
    {
        self.judge_finish(job)?;
        self.table.end(job, Ending::Finish)
    }

    // One tick: cuts the open jobs that are due, counts the held ones, runs one unit of the first of the others, and raises the
    // clock.
    pub fn tick(&mut self) -> Result<Ticked, CallRefusal>
        ensures step { TicksOn B.Binder self.old result self.new }
        ensures same_binder { SameBinder self.old self.new }
        ensures refused_changes_nothing { (e : CallRefusal) → result ≡ Err e → self.new ≡ self.old }
        ensures recorded { (h : History) → Records B.Binder self.old h → Records B.Binder self.new (event_of Tick event.Ticked result ∷ h) }
        ensures certified { CertifiedBy B.Binder self.new }
        ensures needs_met { NeedsMetBy B.Binder self.new }
    {
        self.judge_tick()?;
        let cut = self.table.cut_due(self.clock);
        let roster = Roster {
            jobs: self.table.records(),
        };
        let choice = roster.survey(&self.binder);
        self.table.run(choice.first);
        self.clock += 1;
        Ok(Ticked {
            ran: choice.first,
            held: choice.held,
            cut,
        })
    }

    // Any of the three calls, with its answer.
    pub fn perform(&mut self, call: Call) -> Event
        ensures answers_the_call { call_of result ≡ call }
        ensures step { Performs B.Binder self.old call result self.new }
        ensures same_binder { SameBinder self.old self.new }
        ensures refused_changes_nothing { (e : CallRefusal) → result ≡ Refused call e → self.new ≡ self.old }
        ensures recorded { (h : History) → Records B.Binder self.old h → Records B.Binder self.new (result ∷ h) }
        ensures certified { CertifiedBy B.Binder self.new }
    {
        let refused = |why| Event::Refused { call, why };
        match call {
            Call::Arrive {
                component,
                deadline,
            } => self.arrive(component, deadline).map_or_else(
                refused,
                |job| Event::Arrived {
                    component,
                    deadline,
                    job,
                },
            ),
            Call::Finish { job } => self
                .finish(job)
                .map_or_else(refused, |units| Event::Finished { job, units }),
            Call::Tick => self.tick().map_or_else(refused, Event::Ticked),
        }
    }
}
