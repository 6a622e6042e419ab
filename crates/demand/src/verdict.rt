ghost use Rattle.std.specs.Prelude.{◌≡◌, Some};
ghost use Rattle.demand.specs.Verdicts.{refusal_numbers, refusal_words};
ghost use Rattle.std.proofs.Common.{rules};

use crate::refusal::Refusal;
use std::error::Error;
use std::fmt;

// Why the admission test refuses a binder.
#[derive(Clone, Copy, PartialEq, Eq, Debug)]
pub enum TestRefusal {
    // the shortest length at which the bounds add up to more than that length
    DemandExceeds(u32),
    // the gains add up to more than 4,096
    GainsExceed,
    // no component, or nine and more
    SheetCount,
}

impl TestRefusal {
    // The refusal's number, with the length that is exceeded, or 0, as the rules list them.
    pub fn numbers(&self) -> (u32, u32)
        ensures { result ≡ refusal_numbers self.now }
    {
        match *self {
            TestRefusal::DemandExceeds(length) => (8, length),
            TestRefusal::GainsExceed => (9, 0),
            TestRefusal::SheetCount => (10, 0),
        }
    }
}

impl Refusal for TestRefusal {
    ghost numbered = { λ x. (refusal_numbers x).0 };

    ghost low = { Prim.search rules };

    ghost high = { Prim.search rules };

    fn number(&self) -> u32 {
        self.numbers().0
    }
}

// Why, in words.
impl fmt::Display for TestRefusal {
    ghost output = { λ x. Some (refusal_words x) };

    fn fmt<W: fmt::Write>(&self, f: &mut fmt::Formatter<W>) -> fmt::Result {
        f.write_str(match self {
            TestRefusal::DemandExceeds(_) => "the bounds add up to more than that length",
            TestRefusal::GainsExceed => "the gains add up to more than 4096",
            TestRefusal::SheetCount => "a binder has one to eight sheets",
        })
    }
}

impl Error for TestRefusal {}
