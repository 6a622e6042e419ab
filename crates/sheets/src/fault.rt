ghost use Rattle.std.specs.Prelude.{◌≡◌, Some};
ghost use Rattle.sheets.specs.Faults.{spot, fault_numbers, fault_words};
ghost use Rattle.std.proofs.Common.{rules};

use demand::Refusal;
use std::error::Error;
use std::fmt;

// Where a record of a binder file begins: its index, counted from 0, and its byte offset in the file.
#[derive(Clone, Copy, PartialEq, Eq, Debug)]
pub struct RecordStart {
    pub index: u32,
    pub place: u32,
}

// Where a fault lies: the index of the record, and a byte offset in the file.
#[derive(Clone, Copy, PartialEq, Eq, Debug)]
pub struct Location {
    pub index: u32,
    pub place: u64,
}

// Why a binder file, or the fields of a sheet, are refused.
#[derive(Clone, Copy, PartialEq, Eq, Debug)]
pub enum FileFault {
    // the file ends inside the record
    CutShort(Location),
    // no kind of sheet has the record's kind number
    UnknownKind(Location),
    // no sheet of the record's kind has that length
    WrongLength(Location),
    // a field lies outside its range
    OutOfRange(Location),
    // a row does not come after the one before
    OutOfOrder(Location),
    // no record, or more than eight
    RecordCount(Location),
}

impl RecordStart {
    // The start of a file's first record, and of a record that stands alone.
    pub const FIRST: RecordStart = RecordStart { index: 0, place: 0 };

    // The location `offset` bytes into the record.
    pub fn at(&self, offset: u32) -> Location
        ensures { result ≡ spot self.now offset }
    {
        Location {
            index: self.index,
            place: u64::from(self.place) + u64::from(offset),
        }
    }
}

impl FileFault {
    // The refusal's number, with the record and the place, as the rules list them.
    pub fn numbers(&self) -> (u32, u32, u64)
        ensures { result ≡ fault_numbers self.now }
    {
        match *self {
            FileFault::CutShort(at) => (1, at.index, at.place),
            FileFault::UnknownKind(at) => (2, at.index, at.place),
            FileFault::WrongLength(at) => (3, at.index, at.place),
            FileFault::OutOfRange(at) => (4, at.index, at.place),
            FileFault::OutOfOrder(at) => (5, at.index, at.place),
            FileFault::RecordCount(at) => (6, at.index, at.place),
        }
    }
}

impl Refusal for FileFault {
    ghost numbered = { λ x. (fault_numbers x).0 };

    ghost low = { Prim.search rules };

    ghost high = { Prim.search rules };

    fn number(&self) -> u32 {
        self.numbers().0
    }
}

// What is wrong with the record, in words.
impl fmt::Display for FileFault {
    ghost output = { λ x. Some (fault_words x) };

    fn fmt<W: fmt::Write>(&self, f: &mut fmt::Formatter<W>) -> fmt::Result {
        f.write_str(match self {
            FileFault::CutShort(_) => "is cut short by the end of the file",
            FileFault::UnknownKind(_) => "is of no known kind",
            FileFault::WrongLength(_) => "has a length that no sheet of its kind has",
            FileFault::OutOfRange(_) => "has a field outside its range",
            FileFault::OutOfOrder(_) => "has a row that does not come after the one before",
            FileFault::RecordCount(_) => "is one too few or too many: a file has one to eight",
        })
    }
}

impl Error for FileFault {}
