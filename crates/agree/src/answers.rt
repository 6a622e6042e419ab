// Calls of a scheduler, each with the answer that the reference gives.
use crate::words::{FromWords, Words};
use demand::Refusal;
use scheduler::{Call, CallRefusal, Event, Ticked};

// The refusals that the reference gives by their numbers.
const REFUSALS: [CallRefusal; 7] = [
    CallRefusal::NotAdmitted,
    CallRefusal::NoComponent,
    CallRefusal::DeadlineOutOfRange,
    CallRefusal::ClockEnded,
    CallRefusal::TableFull,
    CallRefusal::NoJob,
    CallRefusal::NotOpen,
];

// A call that is made so many times, and the answer that it gets each time; no answer where the words give one that no such call gets.
#[derive(Clone, Copy)]
pub(crate) struct Step {
    pub(crate) call: Call,
    pub(crate) times: u64,
    pub(crate) answer: Option<Event>,
}

// The next call, and how many times it is made.
fn read_call(words: &mut Words) -> (Call, u64) {
    match words.letter() {
        b'a' => {
            let component = words.middle();
            let deadline = words.middle();
            (
                Call::Arrive {
                    component,
                    deadline,
                },
                1,
            )
        }
        b'f' => (Call::Finish { job: words.long() }, 1),
        b'm' => (Call::Tick, words.number()),
        _ => (Call::Tick, 1),
    }
}

// An arrive's answer, the job of that number.
fn arrived(call: Call, job: usize) -> Option<Event> {
    match call {
        Call::Arrive {
            component,
            deadline,
        } => Some(Event::Arrived {
            component,
            deadline,
            job,
        }),
        Call::Finish { .. } | Call::Tick => None,
    }
}

// A finish's answer, the units of its job.
fn finished(call: Call, units: u32) -> Option<Event> {
    match call {
        Call::Finish { job } => Some(Event::Finished { job, units }),
        Call::Arrive { .. } | Call::Tick => None,
    }
}

// A tick's answer, behind the job that ran.
fn ticked(call: Call, ran: Option<usize>, words: &mut Words) -> Option<Event> {
    let held = words.long();
    let cut = words.long();
    match call {
        Call::Tick => Some(Event::Ticked(Ticked { ran, held, cut })),
        Call::Arrive { .. } | Call::Finish { .. } => None,
    }
}

// The refusal of that number.
fn refused(call: Call, number: u32) -> Option<Event> {
    let why = REFUSALS.into_iter().find(|why| why.number() == number)?;
    Some(Event::Refused { call, why })
}

// The answer to the call that the next words say; a word that begins none is read as a refusal.
fn read_answer(call: Call, words: &mut Words) -> Option<Event> {
    match words.letter() {
        b'j' => arrived(call, words.long()),
        b'u' => finished(call, words.middle()),
        b'r' => {
            let ran = Some(words.long());
            ticked(call, ran, words)
        }
        b'i' => ticked(call, None, words),
        _ => refused(call, words.middle()),
    }
}

impl FromWords for Step {
    const MOST: u64 = 100_000;

    fn from_words(words: &mut Words) -> Step {
        let (call, times) = read_call(words);
        let answer = read_answer(call, words);
        Step {
            call,
            times,
            answer,
        }
    }
}
