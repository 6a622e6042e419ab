mod bounds;

use line_sheet::LineSheet;
use row_sheet::RowSheet;

// One component's sheet, of either kind. The kinds are two types, so each `match` over them has a line for each.
#[derive(Clone, Copy)]
pub enum Sheet {
    Rows(RowSheet),
    Line(LineSheet),
}
