ghost use Rattle.std.specs.Prelude.{◌≡◌, Ok, Err};
ghost use Rattle.sheets.specs.Faults.{then, meaning};
ghost use Rattle.sheets.specs.Lines.{line_judged};
ghost use Rattle.sheets.specs.declared.fault.FileFault.{FileFault};

use crate::sheet::LineSheet;
use sheets::{FileFault, Line, RecordStart, accept, is_power, lies_in};

// The fields of a line in file order.
fn judge_line(line: &Line, start: RecordStart) -> Result<(), FileFault>
    ensures { result ≡ line_judged line.now start }
{
    accept(lies_in(1, 4096, line.deadline), start.at(4))?;
    accept(line.burst <= 4096, start.at(6))?;
    accept(is_power(line.per), start.at(8))?;
    accept(line.rate <= line.per, start.at(10))
}

// The sheet of this line, which stands in the record at `start`.
pub(crate) fn sheet_of_line(line: Line, start: RecordStart) -> Result<LineSheet, FileFault>
    ensures { meaning (λ s. s.line) result ≡ then (line_judged line start) (λ _. Ok line) }
{
    judge_line(&line, start)?;
    Ok(LineSheet { line })
}

impl LineSheet {
    // Makes this the sheet of the given line, or refuses its fields as a file of that record alone. A line comes as a
    // value and rows as a slice, so each kind has its own.
    pub fn make(&mut self, line: Line) -> Result<(), FileFault>
        ensures answer { result ≡ line_judged line (record { index = 0; place = 0 }) }
        ensures made { result ≡ Ok tt → self.new.line ≡ line }
        ensures kept { (e : FileFault) → result ≡ Err e → self.new ≡ self.old }
    {
        *self = sheet_of_line(line, RecordStart::FIRST)?;
        Ok(())
    }
}
