ghost use Rattle.std.specs.Prelude.{length};
ghost use Rattle.sheets.specs.Sheets.{bound_of, gain_of, component_bound, component_gain};
ghost use Rattle.sheet_binder.specs.Declarations.{declarations, declared, sheets_of};
ghost use Rattle.std.proofs.Common.{arith};
ghost use Rattle.std.proofs.lemmas.List.{length-map, length-take};
ghost use Rattle.sheet_binder.specs.Sheets.{sheets_lawful};
ghost use Rattle.sheets.proofs.Components.{past_value};

use crate::binder::SheetBinder;
use demand::Binder;

impl Binder for SheetBinder {
    ghost count = { λ x. length (declarations x) };

    ghost bound = { λ x. component_bound (declarations x) };

    ghost gain = { λ x. component_gain (declarations x) };

    ghost few = { λ x. omega (arith, length-map (sheets_of x) declared, length-take x.len x.sheets) };

    ghost starts = { λ x k. (sheets_lawful (sheets_of x) k).starts };

    ghost climbs = { λ x k. (sheets_lawful (sheets_of x) k).climbs };

    ghost repeats = { λ x k. (sheets_lawful (sheets_of x) k).repeats };

    ghost fits = { λ x k. (sheets_lawful (sheets_of x) k).fits };

    ghost absent = { λ x k l. past_value (λ d. bound_of d l) (declarations x) k };

    ghost still = { λ x. past_value gain_of (declarations x) };

    // At most eight, so `as` loses nothing; below, no `From` takes a `u32` to a `usize`.
    fn count(&self) -> u32 {
        self.len as u32
    }

    fn bound(&self, k: u32, length: u32) -> u64 {
        match self.sheets().get(k as usize) {
            Some(sheet) => sheet.bound_at(length),
            None => 0,
        }
    }

    fn gain(&self, k: u32) -> u64 {
        match self.sheets().get(k as usize) {
            Some(sheet) => sheet.gain_units(),
            None => 0,
        }
    }
}
