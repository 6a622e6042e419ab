ghost use Rattle.std.specs.Prelude.{◌≡◌, ◌<◌, ◌≤◌, [], ◌∷◌, ◌++◌, length, Ok, Err};
ghost use Rattle.sheet_binder.specs.Declarations.{declared, sheets_of, declarations};
ghost use Rattle.sheets.specs.declared.fault.FileFault.TheVariants.{RecordCount};

use crate::binder::SheetBinder;
use crate::sheet::Sheet;
use row_sheet::RowSheet;
use sheets::{FileFault, Location};

impl SheetBinder {
    // A binder with no sheet.
    pub fn new() -> SheetBinder
        ensures { declarations result ≡ [] }
    {
        SheetBinder {
            sheets: [Sheet::Rows(RowSheet::BUILT_IN); 8],
            len: 0,
        }
    }

    // The sheets, in order.
    pub fn sheets(&self) -> &[Sheet]
        ensures { result.now ≡ sheets_of self.now }
    {
        &self.sheets[0..self.len]
    }

    // One sheet more, behind the others; a ninth is refused and changes nothing.
    pub fn add(&mut self, sheet: Sheet) -> Result<(), FileFault>
        ensures added { length (declarations self.old) < 8 → (result ≡ Ok tt) × (declarations self.new ≡ declarations self.old ++ declared sheet ∷ []) }
        ensures full { 8 ≤ length (declarations self.old) → (result ≡ Err (RecordCount (record { index = 8; place = 0 }))) × (self.new ≡ self.old) }
    {
        let at = self.len;
        if at >= 8 {
            return Err(FileFault::RecordCount(Location { index: 8, place: 0 }));
        }
        self.sheets[at] = sheet;
        self.len = at + 1;
        Ok(())
    }
}
