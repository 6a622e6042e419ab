ghost use Rattle.std.specs.Prelude.{◌≡◌, Some};
ghost use Rattle.scheduler.specs.Numbers.{call_number, call_words};
ghost use Rattle.std.proofs.Common.{rules};

use demand::Refusal;
use std::error::Error;
use std::fmt;

// A call of a scheduler. Arrive names a component and a deadline, counted in ticks from the arrival; finish names a job.
#[derive(Clone, Copy, PartialEq, Eq, Debug)]
pub enum Call {
    Arrive { component: u32, deadline: u32 },
    Finish { job: usize },
    Tick,
}

// Why a call is refused.
#[derive(Clone, Copy, PartialEq, Eq, Debug)]
pub enum CallRefusal {
    // the binder was not admitted
    NotAdmitted,
    // the binder has no such component
    NoComponent,
    // the deadline is not 1 to 4,096 ticks
    DeadlineOutOfRange,
    // the clock has reached 1,000,000
    ClockEnded,
    // the table has 96 jobs
    TableFull,
    // there is no job of that number
    NoJob,
    // the job is finished or cut
    NotOpen,
}

// What a tick answers: the job that ran, if any, how many open jobs were held back, and how many were cut.
#[derive(Clone, Copy, PartialEq, Eq, Debug)]
pub struct Ticked {
    pub ran: Option<usize>,
    pub held: usize,
    pub cut: usize,
}

// A call with its answer.
#[derive(Clone, Copy, PartialEq, Eq, Debug)]
pub enum Event {
    Arrived {
        component: u32,
        deadline: u32,
        job: usize,
    },
    Finished {
        job: usize,
        units: u32,
    },
    Ticked(Ticked),
    Refused {
        call: Call,
        why: CallRefusal,
    },
}

impl Refusal for CallRefusal {
    ghost numbered = { call_number };

    ghost low = { Prim.search rules };

    ghost high = { Prim.search rules };

    fn number(&self) -> u32 {
        match *self {
            CallRefusal::NotAdmitted => 11,
            CallRefusal::NoComponent => 12,
            CallRefusal::DeadlineOutOfRange => 13,
            CallRefusal::ClockEnded => 14,
            CallRefusal::TableFull => 15,
            CallRefusal::NoJob => 16,
            CallRefusal::NotOpen => 17,
        }
    }
}

// Why, in words.
impl fmt::Display for CallRefusal {
    ghost output = { λ x. Some (call_words x) };

    fn fmt<W: fmt::Write>(&self, f: &mut fmt::Formatter<W>) -> fmt::Result {
        f.write_str(match self {
            CallRefusal::NotAdmitted => "the binder is not admitted",
            CallRefusal::NoComponent => "there is no such component",
            CallRefusal::DeadlineOutOfRange => "a deadline is 1 to 4096 ticks",
            CallRefusal::ClockEnded => "the clock has ended",
            CallRefusal::TableFull => "the table of jobs is full",
            CallRefusal::NoJob => "there is no such job",
            CallRefusal::NotOpen => "the job is not open",
        })
    }
}

impl Error for CallRefusal {}
