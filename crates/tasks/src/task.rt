ghost use Rattle.std.specs.Prelude.{◌≡◌, Some};
ghost use Rattle.tasks.specs.Tasks.{make_numbers, make_words};
ghost use Rattle.std.proofs.Common.{rules};

use demand::Refusal;
use std::error::Error;
use std::fmt;

// One sporadic task as a supplier lists it: a job of at most `budget` units every `period` ticks at most, due `deadline` ticks
// after its release.
#[derive(Clone, Copy, PartialEq, Eq, Debug)]
pub struct Task {
    pub period: u16,
    pub deadline: u16,
    pub budget: u16,
}

// Why no sheet is made of a task list.
#[derive(Clone, Copy, PartialEq, Eq, Debug)]
pub enum MakeRefusal {
    // this task is out of range; by the rules 0 for an empty list, 64 for one of more than 64 tasks
    TaskOutOfRange(usize),
    // this task would need a ninth row or a seventeenth copy
    NoRoom(usize),
}

impl MakeRefusal {
    // The refusal's number, with the task's index, as the rules list them.
    pub fn numbers(&self) -> (u32, usize)
        ensures { result ≡ make_numbers self.now }
    {
        match *self {
            MakeRefusal::TaskOutOfRange(index) => (18, index),
            MakeRefusal::NoRoom(index) => (19, index),
        }
    }
}

impl Refusal for MakeRefusal {
    ghost numbered = { λ x. (make_numbers x).0 };

    ghost low = { Prim.search rules };

    ghost high = { Prim.search rules };

    fn number(&self) -> u32 {
        self.numbers().0
    }
}

// Why, in words.
impl fmt::Display for MakeRefusal {
    ghost output = { λ x. Some (make_words x) };

    fn fmt<W: fmt::Write>(&self, f: &mut fmt::Formatter<W>) -> fmt::Result {
        match self {
            MakeRefusal::TaskOutOfRange(index) => write!(f, "task {index} is out of range"),
            MakeRefusal::NoRoom(index) => {
                write!(f, "task {index} needs a ninth row or a seventeenth copy")
            }
        }
    }
}

impl Error for MakeRefusal {}
