ghost use Rattle.std.specs.Prelude.{◌≡◌};
ghost use Rattle.sheets.specs.Sheets.{bound_of, gain_of};
ghost use Rattle.sheet_binder.specs.Declarations.{declared};

use crate::sheet::Sheet;

impl Sheet {
    // The most units that the component may demand in a window of `length` ticks.
    pub fn bound_at(&self, length: u32) -> u64
        ensures { result ≡ bound_of (declared self.now) length }
    {
        match self {
            Sheet::Rows(sheet) => sheet.bound_at(length),
            Sheet::Line(sheet) => sheet.bound_at(length),
        }
    }

    // The units that 4,096 further ticks add to the bound.
    pub fn gain_units(&self) -> u64
        ensures { result ≡ gain_of (declared self.now) }
    {
        match self {
            Sheet::Rows(sheet) => sheet.gain_units(),
            Sheet::Line(sheet) => sheet.gain_units(),
        }
    }
}
