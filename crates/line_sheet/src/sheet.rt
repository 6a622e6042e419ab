ghost use Rattle.std.specs.Prelude.{◌≡◌, true};
ghost use Rattle.sheets.specs.Lines.{sound_line};

use sheets::Line;

// A sheet of one line whose fields obey their ranges.
#[derive(Clone, Copy)]
pub struct LineSheet {
    pub(crate) line: Line,
    ghost sound: { sound_line line ≡ true },
}

impl LineSheet {
    // The built-in sheet; `built_in` says what it declares.
    pub const BUILT_IN: LineSheet = LineSheet {
        line: Line {
            deadline: 4096,
            burst: 0,
            per: 4096,
            rate: 1,
        },
    };
}
