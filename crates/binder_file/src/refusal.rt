ghost use Rattle.std.specs.Prelude.{◌≡◌, Some};
ghost use Rattle.binder_file.specs.Writing.{write_numbers, write_words};
ghost use Rattle.std.proofs.Common.{rules};

use demand::Refusal;
use std::error::Error;
use std::fmt;

// Why a binder is not written.
#[derive(Clone, Copy, PartialEq, Eq, Debug)]
pub enum WriteRefusal {
    // the binder has no sheet
    NoSheet,
    // the buffer is shorter than the file, which needs so many bytes
    ShortBuffer(usize),
}

impl WriteRefusal {
    // The refusal's number, with the bytes needed, as the rules list them.
    pub fn numbers(&self) -> (u32, usize)
        ensures { result ≡ write_numbers self.now }
    {
        match *self {
            WriteRefusal::NoSheet => (6, 0),
            WriteRefusal::ShortBuffer(needed) => (7, needed),
        }
    }
}

impl Refusal for WriteRefusal {
    ghost numbered = { λ x. (write_numbers x).0 };

    ghost low = { Prim.search rules };

    ghost high = { Prim.search rules };

    fn number(&self) -> u32 {
        self.numbers().0
    }
}

impl fmt::Display for WriteRefusal {
    ghost output = { λ refusal. Some (write_words refusal) };

    fn fmt<W: fmt::Write>(&self, f: &mut fmt::Formatter<W>) -> fmt::Result {
        match self {
            WriteRefusal::NoSheet => f.write_str("the binder has no sheet"),
            WriteRefusal::ShortBuffer(needed) => {
                write!(f, "the buffer is too short: the file has {needed} bytes")
            }
        }
    }
}

impl Error for WriteRefusal {}
