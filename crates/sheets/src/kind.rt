ghost use Rattle.std.specs.Prelude.{◌≡◌, ℕ, ◌<◌, ◌≤◌, List, length, Err, Result};
ghost use Rattle.sheets.specs.Faults.{spot, meaning};
ghost use Rattle.sheets.specs.Kinds.{kind_of, fields_of};
ghost use Rattle.sheets.specs.Sheets.{Declaration};
ghost use Rattle.sheets.specs.declared.fault.FileFault.{FileFault};
ghost use Rattle.sheets.specs.declared.fault.FileFault.TheVariants.{WrongLength};
ghost use Rattle.sheets.specs.declared.fault.RecordStart.{RecordStart};

use crate::fault::{FileFault, RecordStart};
use arrayvec::ArrayVec;

// A kind of sheet: its number in a file, and how its fields, two bytes each, are read and written.
pub trait SheetKind: Sized {
    // The number that names the kind in a file: the format's, so it is no enum.
    const KIND: u16;

    // `KIND`, as a clause can speak of it.
    ghost number: { ℕ };

    // What a sheet of this kind declares.
    ghost declares: { Self → Declaration };

    // What the fields of the record at a start declare, or the first fault in them.
    ghost judged: { List ℕ → RecordStart → Result Declaration FileFault };

    // `KIND`, with a contract.
    fn tag() -> u16
        ensures { result ≡ number };

    // The sheet of these fields, which stand in the record at `start`.
    fn from_fields(fields: &[u16], start: RecordStart) -> Result<Self, FileFault>
        ensures { meaning declares result ≡ judged fields.now start };

    // How many fields the sheet has.
    fn field_count(&self) -> usize
        ensures { result ≡ length (fields_of (declares self.now)) };

    // The sheet's fields in file order.
    fn fields(&self) -> ArrayVec<u16, 40>
        ensures { result.items ≡ fields_of (declares self.now) };

    ghost named: { (x : Self) → kind_of (declares x) ≡ number };

    // No sheet has more than 40 fields.
    ghost short: { (fs : List ℕ) (start : RecordStart) → 40 < length fs → judged fs start ≡ Err (WrongLength (spot start 0)) };

    // Nor has a sheet that exists.
    ghost slots: { (x : Self) → length (fields_of (declares x)) ≤ 40 };
}
