ghost use Rattle.std.specs.Prelude.{◌≡◌};
ghost use Rattle.sheets.specs.Lines.{line_bound, line_gain};

use crate::sheet::LineSheet;
use sheets::Line;

impl LineSheet {
    // The built-in sheet: one unit every 4,096 ticks, none before they have passed.
    pub fn built_in() -> LineSheet
        ensures { result.line ≡ record { deadline = 4096; burst = 0; per = 4096; rate = 1 } }
    {
        LineSheet::BUILT_IN
    }

    // The line that this sheet declares.
    pub fn line(&self) -> Line
        ensures { result ≡ self.now.line }
    {
        self.line
    }

    // The most units that the component may demand in a window of `length` ticks.
    pub fn bound_at(&self, length: u32) -> u64
        ensures { result ≡ line_bound self.now.line length }
    {
        let line = self.line;
        if length < u32::from(line.deadline) {
            return 0;
        }
        let since = u64::from(length) - u64::from(line.deadline);
        u64::from(line.burst) + u64::from(line.rate) * since / u64::from(line.per)
    }

    // The units that 4,096 further ticks add to the bound.
    pub fn gain_units(&self) -> u64
        ensures { result ≡ line_gain self.now.line }
    {
        u64::from(self.line.rate) * 4096 / u64::from(self.line.per)
    }
}
