ghost use Rattle.std.specs.Prelude.{map};
ghost use Rattle.sheets.specs.Sheets.{rows, line};
ghost use Rattle.row_sheet.specs.RowSheets.{sheet_rows};
ghost use Rattle.sheet_binder.specs.Declarations.{declared};
ghost use Rattle.sheets.specs.Texts.{Appends};
ghost use Rattle.report.specs.Text.{sheet_text, sheets_text};

use line_sheet::LineSheet;
use row_sheet::RowSheet;
use sheet_binder::Sheet;
use std::alloc::AllocError;
use std::fmt::Write;

// Appends a sheet of rows: its index, its kind and its gain, then its rows.
fn write_rows(text: &mut String, index: usize, sheet: &RowSheet) -> Result<(), AllocError>
    ensures { Appends text.old text.new result (sheet_text index (rows (sheet_rows sheet.now))) }
{
    let gain = sheet.gain_units();
    writeln!(text, "sheet {index}: rows, gain {gain}")?;
    for row in sheet.rows() {
        writeln!(text, "  {row}")?;
    }
    Ok(())
}

// Appends a line: its index, its kind and its gain, then its fields.
fn write_line(text: &mut String, index: usize, sheet: &LineSheet) -> Result<(), AllocError>
    ensures { Appends text.old text.new result (sheet_text index (line sheet.now.line)) }
{
    let gain = sheet.gain_units();
    let line = sheet.line();
    writeln!(text, "sheet {index}: line, gain {gain}")?;
    writeln!(text, "  {line}")
}

// Appends a sheet of either kind: two types, with a line for each.
fn write_sheet(text: &mut String, index: usize, sheet: &Sheet) -> Result<(), AllocError>
    ensures { Appends text.old text.new result (sheet_text index (declared sheet.now)) }
{
    match sheet {
        Sheet::Rows(sheet) => write_rows(text, index, sheet),
        Sheet::Line(sheet) => write_line(text, index, sheet),
    }
}

// Appends the sheets in order, numbered from 0.
pub(crate) fn write_sheets(text: &mut String, sheets: &[Sheet]) -> Result<(), AllocError>
    ensures { Appends text.old text.new result (sheets_text 0 (map declared sheets.now)) }
{
    for (index, sheet) in sheets.iter().enumerate() {
        write_sheet(text, index, sheet)?;
    }
    Ok(())
}
