ghost use Rattle.sheets.specs.Kinds.{line_record};
ghost use Rattle.sheets.specs.Sheets.{line};
ghost use Rattle.std.proofs.Common.{rules};

use crate::making::sheet_of_line;
use crate::sheet::LineSheet;
use arrayvec::ArrayVec;
use sheets::{FileFault, Line, RecordStart, SheetKind};

impl SheetKind for LineSheet {
    const KIND: u16 = 2;

    ghost number = { 2 };

    ghost declares = { λ s. line s.line };

    ghost judged = { line_record };

    ghost named = { Prim.search rules };

    ghost short = { Prim.search rules };

    ghost slots = { Prim.search rules };

    fn tag() -> u16 {
        Self::KIND
    }

    fn from_fields(fields: &[u16], start: RecordStart) -> Result<LineSheet, FileFault> {
        let &[deadline, burst, per, rate] = fields else {
            return Err(FileFault::WrongLength(start.at(0)));
        };
        sheet_of_line(
            Line {
                deadline,
                burst,
                per,
                rate,
            },
            start,
        )
    }

    fn field_count(&self) -> usize {
        4
    }

    fn fields(&self) -> ArrayVec<u16, 40> {
        let mut fields = ArrayVec::new();
        fields.push(self.line.deadline);
        fields.push(self.line.burst);
        fields.push(self.line.per);
        fields.push(self.line.rate);
        fields
    }
}
