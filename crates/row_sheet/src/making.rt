ghost use Rattle.std.specs.Prelude.{◌≡◌, ◌≤◌, true, List, map, length, Ok, Err};
ghost use Rattle.sheets.specs.Rows.{row_fields, in_order, row_judged, rows_judged, sound_rows};
ghost use Rattle.sheets.specs.Faults.{then, meaning};
ghost use Rattle.row_sheet.specs.RowSheets.{sheet_rows};
ghost use Rattle.sheets.specs.declared.fault.FileFault.{FileFault};
ghost use Rattle.sheets.specs.declared.row.Row.{Row};
ghost use Rattle.tasks.specs.Tasks.{rounded, Grouped, tasks_judged};
ghost use Rattle.tasks.specs.declared.task.MakeRefusal.{MakeRefusal};

use crate::sheet::RowSheet;
use sheets::{FileFault, Location, RecordStart, Row, accept, is_power, lies_in};
use tasks::{MakeRefusal, Task, TaskRows, rows_of_tasks};

// The row's fields in file order, the row being `offset` bytes into its record. The two meet in `start.at`, and only here and below.
fn judge_fields(row: &Row, start: RecordStart, offset: u32) -> Result<(), FileFault>
    requires { offset ≤ 60 }
    ensures { result ≡ row_fields row.now start offset }
{
    accept(is_power(row.period), start.at(offset))?;
    accept(lies_in(1, row.period, row.deadline), start.at(offset + 2))?;
    accept(lies_in(1, 4096, row.budget), start.at(offset + 4))?;
    accept(lies_in(1, 16, row.copies), start.at(offset + 6))
}

fn judge_order(last: Option<Row>, row: &Row, at: Location) -> Result<(), FileFault>
    ensures { result ≡ in_order last row.now at }
{
    match last {
        Some(before) if !before.comes_before(row) => Err(FileFault::OutOfOrder(at)),
        _ => Ok(()),
    }
}

// One row: its fields, then its order after the last row, if any.
fn judge_row(last: Option<Row>, row: &Row, start: RecordStart, offset: u32) -> Result<(), FileFault>
    requires { offset ≤ 60 }
    ensures { result ≡ row_judged last row.now start offset }
{
    judge_fields(row, start, offset)?;
    judge_order(last, row, start.at(offset))
}

// The rows of one record: how many there are, then each row's fields and its order.
fn judge_rows(rows: &[Row], start: RecordStart) -> Result<(), FileFault>
    ensures { result ≡ rows_judged rows.now start }
{
    if !(1..=8).contains(&rows.len()) {
        return Err(FileFault::WrongLength(start.at(0)));
    }
    let mut last = None;
    for (i, row) in rows.iter().enumerate() {
        // there are at most eight, so `as` loses nothing
        judge_row(last, row, start, 4 + 8 * i as u32)?;
        last = Some(*row);
    }
    Ok(())
}

// The sheet of these rows, which stand in the record at `start`.
pub(crate) fn sheet_of_rows(rows: &[Row], start: RecordStart) -> Result<RowSheet, FileFault>
    ensures { meaning sheet_rows result ≡ then (rows_judged rows.now start) (λ _. Ok rows.now) }
{
    judge_rows(rows, start)?;
    Ok(RowSheet::holding(rows))
}

impl RowSheet {
    // The sheet of these rows, which the rules accept.
    fn holding(rows: &[Row]) -> RowSheet
        requires { (length rows.now ≤ 8) × (sound_rows rows.now ≡ true) }
        ensures { sheet_rows result ≡ rows.now }
    {
        let len = rows.len();
        let mut held = [Row::default(); 8];
        held[0..len].copy_from_slice(rows);
        RowSheet { rows: held, len }
    }

    // Makes this the sheet of the given rows, or refuses them as a file of that record alone. Rows come as a slice and a line as a
    // value, so each kind has its own.
    pub fn make(&mut self, rows: &[Row]) -> Result<(), FileFault>
        ensures answer { result ≡ rows_judged rows.now (record { index = 0; place = 0 }) }
        ensures made { result ≡ Ok tt → sheet_rows self.new ≡ rows.now }
        ensures kept { (e : FileFault) → result ≡ Err e → self.new ≡ self.old }
    {
        *self = sheet_of_rows(rows, RecordStart::FIRST)?;
        Ok(())
    }

    // Makes this the sheet of the tasks: rounded, grouped and counted, in sheet order. There is only one such sheet.
    pub fn make_from_tasks(&mut self, tasks: &[Task]) -> Result<(), MakeRefusal>
        ensures answer { result ≡ tasks_judged tasks.now }
        ensures grouped { result ≡ Ok tt → Grouped (map rounded tasks.now) (sheet_rows self.new) }
        ensures no_other { result ≡ Ok tt → (rs : List Row) → Grouped (map rounded tasks.now) rs → rs ≡ sheet_rows self.new }
        ensures kept { (e : MakeRefusal) → result ≡ Err e → self.new ≡ self.old }
    {
        let TaskRows { rows, len } = rows_of_tasks(tasks)?;
        *self = RowSheet { rows, len };
        Ok(())
    }
}
