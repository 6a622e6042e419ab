ghost use Rattle.std.specs.Prelude.{◌≡◌, ◌≤◌, true, take};
ghost use Rattle.sheets.specs.Rows.{sound_rows};

use sheets::Row;

// A sheet of one to eight rows that obey their ranges and stand in order. Slots at and past `len` have no meaning, so that
// equality is not derived. An array with a length, since a sheet is `Copy` and the library's `ArrayVec` is not.
#[derive(Clone, Copy)]
pub struct RowSheet {
    pub(crate) rows: [Row; 8],
    pub(crate) len: usize,
    ghost few: { len ≤ 8 },
    ghost sound: { sound_rows (take len rows) ≡ true },
}

impl RowSheet {
    // The built-in sheet; `built_in` says what it declares.
    pub const BUILT_IN: RowSheet = RowSheet {
        rows: [Row {
            period: 4096,
            deadline: 4096,
            budget: 1,
            copies: 1,
        }; 8],
        len: 1,
    };
}
