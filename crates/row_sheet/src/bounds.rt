ghost use Rattle.std.specs.Prelude.{◌≡◌, ◌≤◌, [], ◌∷◌, length};
ghost use Rattle.sheets.specs.Rows.{row_bound, row_gain, rows_bound, rows_gain};
ghost use Rattle.row_sheet.specs.RowSheets.{sheet_rows};
ghost use Rattle.row_sheet.specs.Sporadic.{MostWork};

use crate::sheet::RowSheet;
use sheets::Row;

// What a row of a sheet keeps to is asked for: a row alone promises nothing.
fn row_bound(row: &Row, length: u32) -> u64
    requires { (1 ≤ row.now.period) × (row.now.budget ≤ 4096) × (row.now.copies ≤ 16) }
    ensures { result ≡ row_bound row.now length }
{
    if length < u32::from(row.deadline) {
        return 0;
    }
    let since = u64::from(length) - u64::from(row.deadline);
    u64::from(row.copies) * u64::from(row.budget) * (since / u64::from(row.period) + 1)
}

// As above.
fn row_gain(row: &Row) -> u64
    requires { (1 ≤ row.now.period) × (row.now.budget ≤ 4096) × (row.now.copies ≤ 16) }
    ensures { result ≡ row_gain row.now }
{
    u64::from(row.copies) * u64::from(row.budget) * 4096 / u64::from(row.period)
}

impl RowSheet {
    // The built-in sheet: one row with a unit every 4,096 ticks, due at the end of them.
    pub fn built_in() -> RowSheet
        ensures { sheet_rows result ≡ record { period = 4096; deadline = 4096; budget = 1; copies = 1 } ∷ [] }
    {
        RowSheet::BUILT_IN
    }

    // The rows, in sheet order.
    pub fn rows(&self) -> &[Row]
        ensures value { result.now ≡ sheet_rows self.now }
        ensures len { length result.now ≡ self.now.len }
    {
        &self.rows[0..self.len]
    }

    // The most units that the component may demand in a window of `length` ticks: the most that its rows' sporadic tasks can
    // have both released and due in it.
    pub fn bound_at(&self, length: u32) -> u64
        ensures value { result ≡ rows_bound (sheet_rows self.now) length }
        ensures most_sporadic_work { MostWork (sheet_rows self.now) length result }
    {
        self.rows().iter().map(|row| row_bound(row, length)).sum()
    }

    // The units that 4,096 further ticks add to the bound.
    pub fn gain_units(&self) -> u64
        ensures { result ≡ rows_gain (sheet_rows self.now) }
    {
        self.rows().iter().map(row_gain).sum()
    }
}
