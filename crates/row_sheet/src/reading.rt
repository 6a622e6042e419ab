ghost use Rattle.std.specs.Prelude.{◌≡◌, ◌≤◌, map, length};
ghost use Rattle.sheets.specs.Kinds.{rows_record};
ghost use Rattle.sheets.specs.Sheets.{rows};
ghost use Rattle.row_sheet.specs.RowSheets.{sheet_rows, row_of};
ghost use Rattle.std.proofs.Common.{inr, arith, rules};
ghost use Rattle.sheets.proofs.Records.{rows_refused, sound_slots};

use crate::making::sheet_of_rows;
use crate::sheet::RowSheet;
use arrayvec::ArrayVec;
use sheets::{FileFault, RecordStart, Row, SheetKind};

// The rows of these fields, four each. They are put into an array by their index: a push for each would store the vector's length each
// time.
fn rows_of(fields: &[[u16; 4]]) -> ArrayVec<Row, 8>
    requires { length fields.now ≤ 8 }
    ensures { result.items ≡ map row_of fields.now }
{
    let mut held = [Row::default(); 8];
    for (i, &[period, deadline, budget, copies]) in fields.iter().enumerate() {
        held[i] = Row {
            period,
            deadline,
            budget,
            copies,
        };
    }
    let mut rows = ArrayVec::from(held);
    rows.truncate(fields.len());
    rows
}

impl SheetKind for RowSheet {
    const KIND: u16 = 1;

    ghost number = { 1 };

    ghost declares = { λ s. rows (sheet_rows s) };

    ghost judged = { rows_record };

    ghost named = { Prim.search rules };

    ghost short = { λ fs start h. rows_refused fs start (inr (omega arith)) };

    ghost slots = { λ x. sound_slots (sheet_rows x) x.sound };

    fn tag() -> u16 {
        Self::KIND
    }

    fn from_fields(fields: &[u16], start: RecordStart) -> Result<RowSheet, FileFault> {
        let (rows, rest) = fields.as_chunks::<4>();
        if !rest.is_empty() || rows.len() > 8 {
            return Err(FileFault::WrongLength(start.at(0)));
        }
        sheet_of_rows(rows_of(rows).as_slice(), start)
    }

    fn field_count(&self) -> usize {
        4 * self.rows().len()
    }

    fn fields(&self) -> ArrayVec<u16, 40> {
        let mut fields = ArrayVec::new();
        for row in self.rows() {
            fields.push(row.period);
            fields.push(row.deadline);
            fields.push(row.budget);
            fields.push(row.copies);
        }
        fields
    }
}
